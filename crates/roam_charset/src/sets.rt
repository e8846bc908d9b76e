//! The four code elements, and which of them the next character is of.
ghost use Rattle.std.specs.Prelude.{◌≡◌, ◌↔◌, Some, None, IsTrue};
ghost use Rattle.roam_charset.specs.Charsets.{mapped_by};
ghost use Rattle.roam_charset.specs.Sets.{started_sets, after_designation, set_in, in_use, spent};

use crate::charsets::Charset;

/// A code element, to which a set can be designated (ECMA-35).
#[derive(Clone, Copy, PartialEq, Eq)]
pub enum Element {
    G0,
    G1,
    G2,
    G3,
}

/// The designated sets and the shifts of a terminal.
#[derive(Clone, Copy, PartialEq, Eq)]
pub struct Sets {
    /// The set that is designated to G0.
    pub g0: Charset,

    /// The set that is designated to G1.
    pub g1: Charset,

    /// The set that is designated to G2.
    pub g2: Charset,

    /// The set that is designated to G3.
    pub g3: Charset,

    /// The element that a locking shift has invoked.
    pub locked: Element,

    /// The element that a single shift has invoked for the next printed character.
    pub single: Option<Element>,
}

impl Sets {
    /// ASCII in each element, G0 invoked, no single shift: how a terminal starts (VT220 Programmer Reference, RIS).
    pub fn new() -> Self
        ensures started { result ≡ started_sets }
    {
        Sets {
            g0: Charset::Ascii,
            g1: Charset::Ascii,
            g2: Charset::Ascii,
            g3: Charset::Ascii,
            locked: Element::G0,
            single: None,
        }
    }

    /// Designates a set to an element (ECMA-35, section 14.3: GZD4 to G3D4).
    pub fn designate(&mut self, element: Element, set: Charset)
        ensures designated { self.new ≡ after_designation element set self.old }
    {
        match element {
            Element::G0 => self.g0 = set,
            Element::G1 => self.g1 = set,
            Element::G2 => self.g2 = set,
            Element::G3 => self.g3 = set,
        }
    }

    /// Invokes an element until the next locking shift (LS0 to LS3: ECMA-48, sections 8.3.75 to 8.3.80).
    pub fn shift(&mut self, element: Element)
        ensures shifted { self.new ≡ record self.old { locked = element } }
    {
        self.locked = element;
    }

    /// Invokes an element for the next printed character alone (SS2, SS3: ECMA-48, sections 8.3.141 and 8.3.142).
    pub fn single_shift(&mut self, element: Element)
        ensures shifted { self.new ≡ record self.old { single = Some element } }
    {
        self.single = Some(element);
    }

    // The set that is designated to an element.
    fn set_in(&self, element: Element) -> Charset
        ensures set { result ≡ set_in element self.now }
    {
        match element {
            Element::G0 => self.g0,
            Element::G1 => self.g1,
            Element::G2 => self.g2,
            Element::G3 => self.g3,
        }
    }

    /// Returns the character shown for a printed one, by the set of the pending single shift, else by that of the locking shift. Any
    /// character ends a single shift, even one that no set changes.
    #[inline]
    pub fn map(&mut self, c: char) -> char
        ensures mapped { result ≡ mapped_by (in_use self.old) c }
        ensures spent { self.new ≡ spent self.old }
    {
        let set = self.set_in(self.single.unwrap_or(self.locked));
        self.single = None;
        if '\u{7E}' < c {
            return c;
        }
        set.map(c)
    }

    /// Returns true if printed characters show themselves: ASCII is invoked, and no single shift is pending.
    pub fn is_ascii(&self) -> bool
        ensures ascii { IsTrue result ↔ ((set_in self.now.locked self.now ≡ Charset.Ascii) × (self.now.single ≡ None)) }
    {
        self.single.is_none() && self.set_in(self.locked) == Charset::Ascii
    }
}
