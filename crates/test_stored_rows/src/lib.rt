//! Tests of stored rows and their files, by public calls alone.
#![tactic(auto)]

#[cfg(test)]
mod files;
#[cfg(test)]
mod stored;
