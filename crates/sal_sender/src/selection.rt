//! Which candidate of the open picture is chosen.

ghost use Rattle.std.specs.Prelude.{◌≡◌};
ghost use Rattle.std.specs.Option.{option_copied};
ghost use Rattle.sal_sender.specs.Selecting.{is_lost_in, first_wanted, second_wanted, needed_in, missing_from, fits_in, has_fit, size_in, size_at, fitting_in, found_in, sizes_in};

use crate::choice::Size;
use crate::lists::Sizes;
use crate::open_picture::{Candidate, OpenPicture};
use crate::report::Report;
use sal_codec::Codec;

impl<R: Drop> OpenPicture<R> {
    // The candidate that is wanted most: the spare one after a loss, else the fine one.
    fn first(&self, is_lost: bool) -> Option<&Candidate<R>>
        ensures { option_copied result ≡ first_wanted is_lost self.now }
    {
        if is_lost {
            self.spare.as_ref()
        } else {
            Some(&self.fine)
        }
    }

    // The other candidate: none after a loss, else the coarse one.
    fn second(&self, is_lost: bool) -> Option<&Candidate<R>>
        ensures { option_copied result ≡ second_wanted is_lost self.now }
    {
        if is_lost { None } else { Some(&self.coarse) }
    }

    /// Whether the picture was to go on from a tip that is lost since, and there is a spare job.
    pub(crate) fn is_lost(&self, is_tip_lost: bool) -> bool
        ensures { result ≡ is_lost_in is_tip_lost self.now }
    {
        self.from_tip && is_tip_lost && self.spare.is_some()
    }

    /// The id of the job without whose report nothing is chosen, where that report isn't in.
    pub(crate) fn missing(&self, is_lost: bool) -> Option<u32>
        ensures { result ≡ missing_from (needed_in is_lost self.now) }
    {
        let needed = if is_lost {
            self.spare.as_ref()?
        } else {
            &self.coarse
        };
        match &needed.report {
            Some(_) => None,
            None => Some(needed.id),
        }
    }
}

// Whether a report of this size is a frame that fits the budget, in datagrams.
fn fits(size: Size, budget: u32) -> bool
    ensures { result ≡ fits_in budget size }
{
    match size {
        Size::Datagrams(count) => count <= budget,
        Size::Oversize(_) | Size::NoMemory => false,
    }
}

// The size of a candidate's report, where that is in.
fn size<C: Codec>(candidate: &Candidate<Report<C>>) -> Option<Size>
    ensures { result ≡ size_in C.coding candidate.now }
{
    match &candidate.report {
        Some(report) => Some(report.size()),
        None => None,
    }
}

// The size of a candidate's report, where there is the candidate and its report is in.
fn size_of<C: Codec>(candidate: Option<&Candidate<Report<C>>>) -> Option<Size>
    ensures { result ≡ size_at C.coding (option_copied candidate.entry) }
{
    size(candidate?)
}

// Whether there is a size, and it fits the budget.
fn has_fit(size: Option<Size>, budget: u32) -> bool
    ensures { result ≡ has_fit budget size }
{
    match size {
        Some(size) => fits(size, budget),
        None => false,
    }
}

// The candidate, where its report is in and fits the budget.
fn fitting<'a, C: Codec>(
    candidate: Option<&'a Candidate<Report<C>>>,
    budget: u32,
) -> Option<&'a Candidate<Report<C>>>
    ensures { option_copied result ≡ fitting_in C.coding budget (option_copied candidate.entry) }
{
    let candidate = candidate?;
    if has_fit(size(candidate), budget) {
        Some(candidate)
    } else {
        None
    }
}

/// The first candidate whose report is in and fits the budget.
pub(crate) fn found<C: Codec>(
    picture: &OpenPicture<Report<C>>,
    is_lost: bool,
    budget: u32,
) -> Option<&Candidate<Report<C>>>
    ensures { option_copied result ≡ found_in C.coding is_lost budget picture.now }
{
    match fitting(picture.first(is_lost), budget) {
        Some(candidate) => Some(candidate),
        None => fitting(picture.second(is_lost), budget),
    }
}

/// The sizes of the candidates whose reports are in.
pub(crate) fn sizes<C: Codec>(picture: &OpenPicture<Report<C>>, is_lost: bool) -> Sizes
    ensures { result ≡ sizes_in C.coding is_lost picture.now }
{
    let mut sizes = Sizes::new();
    sizes.add(size_of(picture.first(is_lost)));
    sizes.add(size_of(picture.second(is_lost)));
    sizes
}
