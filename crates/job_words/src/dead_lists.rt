//! Lists of dead nozzles.
ghost use Rattle.job_words.specs.DeadLists.{dead_value as dead_of};
ghost use Rattle.std.specs.Option.{option_map};
ghost use Rattle.std.specs.Prelude.{◌≡◌};

use dead_nozzles::DeadNozzles;
use key_values::number_within;

/// The dead nozzles that a text lists: 1 to 255 numbers from 0 to 254 in rising order, with commas between.
pub fn dead_value(text: &str) -> Option<DeadNozzles>
    ensures { option_map (λ dead. dead.items) result ≡ dead_of text.now }
{
    let mut dead = DeadNozzles::new();
    let mut least = 0;
    'numbers: for number in text.split(',') {
        let nozzle = number_within(least, 254, number.as_bytes())?;
        dead.push(nozzle as u8);
        least = nozzle + 1;
    }
    Some(dead)
}
