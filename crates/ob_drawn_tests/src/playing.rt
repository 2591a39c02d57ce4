//! Calls at a desk and a plain desk that are opened for them.

use crate::drawn::are_alike;
use crate::own::{Access, make_all};
use crate::pair::{Drawn, Pair, Setup, open_both};
use std::alloc::Global;
use std::process::Abort;

/// What is called.
#[derive(Clone, Copy)]
pub enum Run<'a> {
    /// So many calls that are drawn.
    Drawn(u32),
    /// These calls of the first client, each behind some calls of others that are drawn.
    Beside(&'a [Access]),
}

// Makes the calls, and notes which of those of the first client a share refuses. Whether each call is
// answered alike.
fn make(
    rt: &impl Abort,
    pair: &mut Pair,
    setup: &Setup,
    run: &Run<'_>,
    refused: &mut Vec<bool>,
) -> bool {
    match *run {
        Run::Drawn(calls) => are_alike(rt, pair, setup, calls),
        Run::Beside(own) => make_all(rt, pair, setup, own, refused),
    }
}

/// The same at two desks that are opened for it. The numbers that are drawn go on behind it, as the
/// counts of causes do.
pub fn play(
    rt: &impl Abort,
    alloc: Global,
    setup: &Setup,
    drawn: &mut Drawn,
    run: &Run<'_>,
    refused: &mut Vec<bool>,
) -> bool {
    let mut pair = open_both(rt, alloc, setup, *drawn);
    let alike = make(rt, &mut pair, setup, run, refused);
    *drawn = pair.drawn;
    alike
}
