//! Counting pages on meters.
ghost use Rattle.driver_core.specs.Caps.{with_cap};
ghost use Rattle.driver_answer.specs.declared.answer.Answer.TheVariants as answer;
ghost use Rattle.driver_core.specs.Printing.Charging.{RefusesPage};
ghost use Rattle.ink_meter.specs.Accounts.{HasRoom, added, all_inks};
ghost use Rattle.std.specs.Prelude.{All, IfErr, OnErr, OnOk, map, ◌<◌, ◌^◌, ◌≡◌};

use driver_answer::Answer;
use ink_meter::{InkCounts, Meter, OverCap, add_all, admit, cap_all};

/// Sets the caps of the meters if a word gives one. Only a job that prints has such a word.
pub fn set_caps(cap: Option<u64>, meters: &mut Vec<Box<dyn Meter>>)
    ensures { map (λ meter. account meter) meters.new.items
        ≡ with_cap cap (map (λ meter. account meter) meters.old.items) }
{
    if let Some(cap) = cap {
        cap_all(meters, cap);
    }
}

// The answer where this page, which has these dots, has no room.
fn over_cap(number: u32, dots: &InkCounts, over: OverCap) -> Answer
    requires { all_inks dots.now < 2 ^ 64 }
    ensures { result ≡ answer.OverCap number over.total (all_inks dots.now) over.cap }
{
    Answer::OverCap {
        page: number,
        total: over.total,
        dots: dots.k + dots.c + dots.m + dots.y,
        cap: over.cap,
    }
}

/// Counts a page's dots on each meter if all meters have room for them, else on none.
pub fn charge(number: u32, dots: &InkCounts, meters: &mut Vec<Box<dyn Meter>>) -> Result<(), Answer>
    requires { all_inks dots.now < 2 ^ 64 }
    ensures room { OnOk result (All (HasRoom dots.now) (map (λ meter. account meter) meters.old.items)) }
    ensures counted { OnOk result (map (λ meter. account meter) meters.new.items
        ≡ map (added dots.now) (map (λ meter. account meter) meters.old.items)) }
    ensures over { IfErr result (RefusesPage number dots.now (map (λ meter. account meter) meters.old.items)) }
    ensures kept { OnErr result
        (map (λ meter. account meter) meters.new.items ≡ map (λ meter. account meter) meters.old.items) }
{
    match admit(meters, dots) {
        Ok(()) => {
            add_all(meters, dots);
            Ok(())
        }
        Err(over) => Err(over_cap(number, dots, over)),
    }
}
