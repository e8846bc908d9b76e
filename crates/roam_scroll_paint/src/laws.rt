//! Laws of the definitions, each the contract of a function without a body.
ghost use Rattle.roam_scroll_paint.specs.Leads.{PaintingLeads, PaintingPlaces, PaintLeads};

/// Whatever band moves and whatever more than the differences is written: the text leads a ground terminal from one screen to the other.
pub fn painting_leads()
    ensures leads { PaintingLeads }
{}

/// So does the text of a painter that writes each place which differs, and nothing else.
pub fn paint_leads()
    ensures leads { PaintLeads }
{}

/// Whatever is written: behind each code point after which terminals disagree on the cursor's column the cursor is placed.
pub fn painting_places()
    ensures placed { PaintingPlaces }
{}
