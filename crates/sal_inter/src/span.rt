//! What a block reads of a reference along one side (RFC 6386, sections 5 and 18.3).

ghost use Rattle.std.specs.Prelude.{◌≡◌, pos, neg_ℤ, ◌≤ℤ◌, ◌+◌, ◌<◌, ◌≤◌, ◌↔◌, IsTrue};
ghost use Rattle.sal_inter.specs.Inter.{whole_of, fraction_of};
ghost use Rattle.sal_inter.specs.Windows.{IsPlace, IsSpan, IsInside};

/// From where on, how many samples, and the eighths of a sample between them.
#[derive(Clone, Copy)]
pub(crate) struct Span {
    pub start: i64,
    pub count: usize,
    pub fraction: usize,
}

// Whole samples of a component.
fn whole_of(eighths: bool, component: i16) -> i64
    ensures value { result ≡ whole_of eighths component }
    ensures small { (neg_ℤ (pos 32768) ≤ℤ result) × (result ≤ℤ pos 32768) }
{
    if eighths {
        (component >> 3) as i64
    } else {
        (component >> 2) as i64
    }
}

// The eighths of a sample that are left.
fn fraction_of(eighths: bool, component: i16) -> usize
    ensures value { result ≡ fraction_of eighths component }
    ensures small { result < 8 }
{
    if eighths {
        component.rem_euclid(8) as usize
    } else {
        2 * component.rem_euclid(4) as usize
    }
}

impl Span {
    /// Of a block of `side` samples from `place` on, by a vector's component.
    pub(crate) fn of(place: i32, side: usize, eighths: bool, component: i16) -> Span
        requires side { side ≤ 16 }
        ensures { IsSpan place side eighths component result }
    {
        let fraction = fraction_of(eighths, component);
        let start = place as i64 + whole_of(eighths, component);
        if fraction == 0 {
            Span {
                start,
                count: side,
                fraction,
            }
        } else {
            Span {
                start: start - 2,
                count: side + 5,
                fraction,
            }
        }
    }

    /// Whether it lies in a side of so many samples.
    pub(crate) fn is_inside(self, side: u16) -> bool
        requires place { IsPlace self.start }
        requires count { self.count ≤ 21 }
        ensures { IsTrue result ↔ IsInside self side }
    {
        self.start >= 0 && self.start + self.count as i64 <= side as i64
    }
}
