//! What a meter is.
ghost use Rattle.ink_meter.specs.Accounts.{Account, HasRoom, added, all_inks, capped};
ghost use Rattle.std.specs.Prelude.{IsTrue, ◌<◌, ◌^◌, ◌↔◌, ◌≡◌};

use printer_definitions::InkCounts;

/// Counts dots, ink by ink, up to a cap on all of them together.
pub trait Meter: Drop {
    /// The meter's totals and its cap.
    ghost account: { Self → Account };

    /// Whether the cap lets these dots be counted too. Reaching the cap exactly is allowed.
    fn room(&self, dots: &InkCounts) -> bool
        ensures { IsTrue result ↔ HasRoom dots.now (account self.now) };

    /// Counts these dots.
    fn add(&mut self, dots: &InkCounts)
        requires { HasRoom dots.now (account self.old) }
        ensures { account self.new ≡ added dots.now (account self.old) };

    /// Sets the cap. The cap may be below the total; then there is no room even for 0 dots.
    fn set_cap(&mut self, cap: u64)
        ensures { account self.new ≡ capped cap (account self.old) };

    /// The dots counted so far. All four together fit 64 bits.
    fn total(&self) -> InkCounts
        ensures is { result ≡ (account self.now).totals }
        ensures fits { all_inks result < 2 ^ 64 };

    /// The cap.
    fn cap(&self) -> u64
        ensures { result ≡ (account self.now).cap };
}
