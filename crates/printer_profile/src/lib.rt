//! Printers by name and by text: what a printer can do, whether its profile makes sense, and the text that describes
//! it.
//!
//! The text has the line `escp2-profile 2` or `escp2-profile 1` and then lines `key=value`, each key at most once and
//! in any order. Empty lines and lines that begin with `#` are skipped. A line ends with LF or CR LF; only the last
//! line may lack its end. `hdpi`, `vdpi`, `nozzles`, `pitch` and `inks` are required; `black_start`, `left`, `right`,
//! `top` and `bottom` default to 0, and `limit_k`, `limit_c`, `limit_m` and `limit_y` to 255. Values are decimal
//! numbers without a sign and without a leading zero, except for the inks: `k`, `cmy` or `cmyk`. Version 2 also has
//! `curve_k`, `curve_c`, `curve_m` and `curve_y`: the tone curve of an ink, 17 numbers from 0 to 256 with commas
//! between, which are the tones of the amounts 0, 16, .. 256. Without its curve an ink keeps each amount as it is.
//!
//! `read` returns exactly the profile of a text, or its first fault with the number of the line. `check` returns
//! exactly the first fault of a profile in the order of `ProfileFault`. `built_in` returns exactly the profiles of the
//! table, and `tone` exactly the tone of an amount by the curve of an ink. None of them allocates memory. `print`
//! appends exactly the canonical text, which is of version 2 and has at most 2068 bytes; on `Memory` the vector is
//! unchanged. `set` changes one key as a line of a text would; a refused call changes nothing.
//!
//! Four laws join these calls to the other crates. A printed profile is read back (`printed_is_read`). The two versions
//! of a text agree but for the keys of the curves (`versions_agree`). A profile that passes its checks can print
//! (`checked_can_print`), and its nozzles and pitch are coprime, as interleaved passes need (`checked_is_coprime`).
#![tactic(auto)]

mod built_ins;
pub mod examples;
mod fields;
mod keys;
mod laws;
mod lines;
mod printing;
mod reading;
mod setting;
mod validity;
mod values;

pub use built_ins::{TINY, TINY1, built_in};
pub use fields::{Profile, STRAIGHT_CURVE};
pub use keys::key_name;
pub use laws::{checked_can_print, checked_is_coprime, printed_is_read, versions_agree};
pub use printer_definitions::InkSet;
pub use pwg_definitions::{PageForm, Wanted};
pub use reading::{TextCause, TextFault, read};
pub use separation_definitions::Window;
pub use setting::SetFault;
pub use validity::ProfileFault;
