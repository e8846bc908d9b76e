//! Graphic character sets: the character of each code.
//!
//! The model is that of ECMA-35 (ISO 2022) and the VT220. A set is designated to each of four code elements G0 to G3. A locking shift
//! invokes one of them, and a single shift another one for one character.
//!
//! This project's profile deviates in two points. It has sets of 94 characters only, invoked for the codes 2/1 to 7/14; a GR shift has no
//! effect. Any printed character ends a single shift, even one that no set changes.
#![tactic(auto)]

pub mod charsets;
pub mod sets;

pub use charsets::Charset;
pub use sets::{Element, Sets};
