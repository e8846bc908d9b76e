//! The face of a session, made of the one that was kept.
ghost use Rattle.std.specs.Prelude.{◌≡◌, ℕ, IfOk, IsOkUnless};
ghost use Rattle.roam_screens.specs.Screenshot.{Screenshot, blank_screenshot};
ghost use Rattle.roam_layout.specs.Layouts.{panes};
ghost use Rattle.roam_layout.specs.Faces.{face, ArePictures, Show, KeepsRows};

use roam_cells::Fault;
use roam_layout::{Layout, Pictures, face_over};
use roam_screens::{RowShot, Seen};
use std::alloc::Global;

/// A blank screen of a layout's size. Refuses want of memory.
pub fn blank_of(alloc: Global, layout: &Layout) -> Result<RowShot, Fault>
    ensures blank { IfOk result (λ shot. shot ≡ blank_screenshot layout.now.rows layout.now.cols) }
    ensures fault { IsOkUnless result Fault.OutOfMemory }
{
    layout.facts();
    RowShot::blank(alloc, layout.rows(), layout.cols())
}

/// Returns the face of a layout whose panes show these pictures: marked rows are built, the others are those of the kept screen; all are
/// built if this has another size. `OutOfMemory`.
pub fn face_of<P: Pictures>(
    alloc: Global,
    layout: &Layout,
    pictures: &P,
    kept: &RowShot,
    marks: &[bool; 200],
) -> Result<RowShot, Fault>
    requires pictures { ArePictures (panes layout.now) (P.shots pictures.now) }
    requires kept { (picture : ℕ → Screenshot) → Show picture (P.shots pictures.now) → KeepsRows marks.now kept.now layout.now picture }
    ensures face { IfOk result (λ shot. (picture : ℕ → Screenshot) → Show picture (P.shots pictures.now) → shot ≡ face layout.now picture) }
    ensures fault { IsOkUnless result Fault.OutOfMemory }
{
    layout.facts();
    if kept.rows() == layout.rows() && kept.cols() == layout.cols() {
        return face_over(alloc, layout, pictures, kept, marks);
    }
    let blank = blank_of(alloc, layout)?;
    face_over(alloc, layout, pictures, &blank, &[true; 200])
}
