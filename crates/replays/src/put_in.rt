//! What was put into programs.
use machine::View;

/// Of each instruction of a processor's programs, whether it was put in.
#[derive(Drop)]
pub struct PutIn {
    /// Of its main program.
    pub main: Vec<bool>,
    /// Of its recovery program.
    pub recovery: Vec<bool>,
}

/// Whether the instruction was put in that a processor runs next.
pub(crate) fn is_next(put_in: &[PutIn], view: &View<'_>, p: u32) -> bool {
    let p = p as usize;
    let (Some(place), Some(recovering)) = (view.place(p), view.recovering(p)) else {
        return false;
    };
    if p >= put_in.len() {
        return false;
    }
    let marks = if recovering {
        &put_in[p].recovery
    } else {
        &put_in[p].main
    };
    place < marks.len() && marks[place]
}
