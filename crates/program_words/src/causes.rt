//! What the causes of error lines mean. `--help CAUSE` shows these texts, and `docs/causes.py` puts them into the
//! manual pages.

use base_definitions::{MOST_COLUMNS, MOST_ROWS};

// The texts of `Width` and `Height` tell the limits of a page.
const _: () = prove!(MOST_COLUMNS == 8191 && MOST_ROWS == 22 * 720);

/// A cause of an error line, and what it means.
#[derive(Clone, Copy, Debug)]
pub struct CauseText {
    /// The name of the cause, without the numbers that may follow it.
    pub name: &'static str,
    /// Each error line that has the cause, and indented below it what the line means and what to do.
    pub text: &'static str,
}

/// All causes of the driver and of the spool, in the order of their statuses.
pub const CAUSES: [CauseText; 50] = [
    CauseText {
        name: "NoCommand",
        text: "\
usage: word N: NoCommand
  There is no word. The first word is the command: print, dots, list, profile or trial.
  jinthbao --help lists what each of them takes.
",
    },
    CauseText {
        name: "UnknownCommand",
        text: "\
usage: word N: UnknownCommand
  The first word is not a command. The commands are print, dots, list, profile and trial, in small letters.
",
    },
    CauseText {
        name: "NotKeyValue",
        text: "\
usage: word N: NotKeyValue
  The word has no \"=\". Each word after the command is key=value, without blanks around the \"=\".
",
    },
    CauseText {
        name: "UnknownKey",
        text: "\
usage: word N: UnknownKey
  The command does not take this key. --help lists the keys of each command; all are in small letters.

profile: line N: UnknownKey
  A profile has no such key, or the key is a curve and the text has version 1. Curves need the first line
  \"escp2-profile 2\"; jinthbao-profile(5) lists the keys.
",
    },
    CauseText {
        name: "RepeatedKey",
        text: "\
usage: word N: RepeatedKey
  An earlier word has the same key. Give each key once: nozzles as dead=1,2 and not as dead=1 dead=2.

profile: line N: RepeatedKey
  An earlier line has the same key. Remove one of the two.
",
    },
    CauseText {
        name: "BadValue",
        text: "\
usage: word N: BadValue
  The key does not take this value. A number has digits alone, no sign and no leading zero, and --help gives its
  range; a name is one of those that --help lists; nozzles rise, with commas between. Word 0 stands for a command
  line that is not UTF-8.

profile: line N: BadValue
  The key does not take this value. A number has digits alone, no sign and no leading zero: up to 65535, and up to
  255 for nozzles, pitch, black_start and limits. A curve is 17 numbers up to 256 with commas between. The inks are
  k, cmy or cmyk.

job: offset N: BadValue
  A number of the command is out of its range. The job is damaged, or it was written by another driver for commands
  that this one does not know.
",
    },
    CauseText {
        name: "Together",
        text: "\
usage: word N: Together
  shingle=1 and dead=.. exclude each other: a head shingles with all of its nozzles. Leave one of the two out.
",
    },
    CauseText {
        name: "NoSend",
        text: "\
usage: word N: NoSend
  No word send=FILE,.. is there, so there is nothing to print. Give one for each sender, up to eight.
",
    },
    CauseText {
        name: "Absent",
        text: "\
profile: line 0: Absent
  No built-in profile has this name, and the current folder has no file of it. The built-in profiles are tiny1, tiny,
  p360k, p360cmyk and p720cmyk. A name with a \"/\" is never found: change to the folder of the file first.

file: sender N job N: Absent
  The current folder has no file of this name, or the name has a \"/\". Nothing was printed.
",
    },
    CauseText {
        name: "TooLong",
        text: "\
profile: line 0: TooLong
  The file has more than 65,536 bytes, so it is not the text of a profile.

file: sender N job N: TooLong
  The file has more than 268,435,456 bytes, or all files together have more than 2,147,483,648. Nothing was printed.
  Print fewer or shorter files at a time.

job: offset N: TooLong
  The job has more bytes than the word most=N allows.
",
    },
    CauseText {
        name: "BadHead",
        text: "\
profile: line 1: BadHead
  The first line is neither \"escp2-profile 1\" nor \"escp2-profile 2\". The file is not a profile, or it has a byte
  order mark or a blank before the first letter.
",
    },
    CauseText {
        name: "NotAscii",
        text: "\
profile: line N: NotAscii
  The line has a byte that is not ASCII. Only comments may have such bytes.
",
    },
    CauseText {
        name: "NoEquals",
        text: "\
profile: line N: NoEquals
  The line has no \"=\". Each line is key=value, empty, or a comment that begins with \"#\".
",
    },
    CauseText {
        name: "Missing",
        text: "\
profile: line 0: Missing KEY
  The required key KEY is absent. Required are hdpi, vdpi, nozzles, pitch and inks.
",
    },
    CauseText {
        name: "Resolution",
        text: "\
profile: line 0: Resolution
  hdpi or vdpi is neither 360 nor 720. The commands of a job know no other steps: choose the nearer of the two.

input: page N line 0: Resolution
  The page has another resolution than the profile. Make the page with the hdpi and vdpi of the profile (-r of
  Ghostscript), or print it by a profile of its resolution.
",
    },
    CauseText {
        name: "Nozzles",
        text: "\
profile: line 0: Nozzles
  nozzles is 0. A head has 1 to 255 nozzles of each ink.
",
    },
    CauseText {
        name: "Pitch",
        text: "\
profile: line 0: Pitch
  pitch is 0. From one nozzle to the next there are 1 to 255 rows.
",
    },
    CauseText {
        name: "NotCoprime",
        text: "\
profile: line 0: NotCoprime N
  N divides both nozzles and pitch, so some rows lie under no nozzle and others under two. Use fewer nozzles: 31 of
  32 with a pitch of 4 or 8.
",
    },
    CauseText {
        name: "RowStep",
        text: "\
profile: line 0: RowStep
  pitch x 3600 / vdpi is above 255, the longest step from nozzle to nozzle that a job can say.
",
    },
    CauseText {
        name: "TopMargin",
        text: "\
profile: line 0: TopMargin N
  top is below N = (nozzles - 1) x pitch, so the first nozzle would stand above the paper in the first pass. Make top
  N or more.
",
    },
    CauseText {
        name: "BlackStart",
        text: "\
profile: line 0: BlackStart
  black_start is 255. It is 0 to 254: the darkness from which on black replaces the grey of the other inks.
",
    },
    CauseText {
        name: "Curve",
        text: "\
profile: line 0: Curve N
  The curve of ink N (0 black, 1 cyan, 2 magenta, 3 yellow) does not begin with 0, or it falls. Each of its 17
  points is at least the one before.
",
    },
    CauseText {
        name: "NoSuchNozzle",
        text: "\
profile: line 0: NoSuchNozzle N
  dead=.. names nozzle N, and the head does not have so many. Nozzles are counted from 0.
",
    },
    CauseText {
        name: "AllDead",
        text: "\
profile: line 0: AllDead N
  dead=.. names all N nozzles, so none is left to print with. Clean the head, and name those that stay clogged.
",
    },
    CauseText {
        name: "NoShingle",
        text: "\
profile: line 0: NoShingle N D
  The head cannot shingle: half of its nozzles is N, and D divides both N and the pitch; or the head has one nozzle.
  Print without shingle=1, or by a profile that uses fewer nozzles.
",
    },
    CauseText {
        name: "BadSync",
        text: "\
input: page 0 line 0: BadSync
  The input does not begin with \"RaS2\", so it is not PWG Raster. It may be empty, a PDF, or CUPS or Apple Raster:
  make PWG Raster of it by Ghostscript (-sDEVICE=pwgraster), or send it to a queue, which converts it.
",
    },
    CauseText {
        name: "Truncated",
        text: "\
input: page N line N: Truncated
  The input ends inside the page: at line 0 in its header, else in the group of equal lines that begins there. It was
  not made or sent whole. Make or send it again; the pages before are printed.
",
    },
    CauseText {
        name: "NotPwg",
        text: "\
input: page N line 0: NotPwg
  No header of a page stands where the page should begin. If files were joined, only the first may have its \"RaS2\":
  leave the first four bytes of the others out.
",
    },
    CauseText {
        name: "Width",
        text: "\
input: page N line 0: Width
  The page has more than 8,191 columns, or none inside the margins of the profile. Choose other paper, or 360 dots an
  inch.
",
    },
    CauseText {
        name: "Height",
        text: "\
input: page N line 0: Height
  The page is longer than 22 inches, or no line is inside the margins of the profile. Choose other paper.
",
    },
    CauseText {
        name: "Kind",
        text: "\
input: page N line 0: Kind
  The pixels are none of the five kinds: grey, black, RGB and CMYK with 8 bits a colour, and black with 1 bit. Set
  -dcupsColorSpace and -dcupsBitsPerColor of Ghostscript: 18, 3, 19 or 6 with 8, or 3 with 1.
",
    },
    CauseText {
        name: "BytesPerLine",
        text: "\
input: page N line 0: BytesPerLine
  The header contradicts itself: BytesPerLine is not (Width x BitsPerPixel + 7) / 8. Make the page by another program.
",
    },
    CauseText {
        name: "Order",
        text: "\
input: page N line 0: Order
  The colours of a pixel stand apart: ColorOrder is not 0. Make the page with its colours pixel by pixel (chunky).
",
    },
    CauseText {
        name: "Transform",
        text: "\
input: page N line 0: Transform
  The page is turned or mirrored, as for the back of a sheet. Print on one side (-o sides=one-sided).
",
    },
    CauseText {
        name: "RunPastLine",
        text: "\
input: page N line N: RunPastLine
  In the group that begins at this line, a packet has more pixels than are left in the line. The file is damaged:
  make it again.
",
    },
    CauseText {
        name: "GroupPastPage",
        text: "\
input: page N line N: GroupPastPage
  The group that begins at this line has more lines than are left in the page. The file is damaged: make it again.
",
    },
    CauseText {
        name: "TooManyPages",
        text: "\
input: page 10000 line 0: TooManyPages
  More follows page 9,999, the last that a job may have. Print in parts; the 9,999 pages are printed.
",
    },
    CauseText {
        name: "Unknown",
        text: "\
job: offset N: Unknown
  No command of the table goes on with this byte. The job is damaged, or another driver wrote it.
",
    },
    CauseText {
        name: "BadLength",
        text: "\
job: offset N: BadLength
  The length of the command is not the one that the command has.
",
    },
    CauseText {
        name: "RunCode",
        text: "\
job: offset N: RunCode
  In a coded row of a raster, a control byte is 128, or it goes past the end of its row.
",
    },
    CauseText {
        name: "Cut",
        text: "\
job: offset N: Cut
  The job ends inside the command that begins here. It was not written or sent whole.
",
    },
    CauseText {
        name: "NotGraphics",
        text: "\
job: offset N: NotGraphics
  A raster stands outside of graphics mode, which ESC ( G turns on. (dots alone)
",
    },
    CauseText {
        name: "NoUnit",
        text: "\
job: offset N: NoUnit
  A page length, margins, a position or a raster stands before any unit was set by ESC ( U. (dots alone)
",
    },
    CauseText {
        name: "NoMargins",
        text: "\
job: offset N: NoMargins
  The command needs margins, or a page length, and none was set before it. (dots alone)
",
    },
    CauseText {
        name: "Density",
        text: "\
job: offset N: Density
  The steps of a raster are not those of the profile: run dots with the profile by which the job was printed. (dots
  alone)
",
    },
    CauseText {
        name: "Rows",
        text: "\
job: offset N: Rows
  A raster has another number of rows than the profile has nozzles: run dots with the profile by which the job was
  printed. (dots alone)
",
    },
    CauseText {
        name: "Backward",
        text: "\
job: offset N: Backward
  The job moves up the page; or it starts the printer, or sets a page length or margins, while the sheet has dots.
  (dots alone)
",
    },
    CauseText {
        name: "OffGrid",
        text: "\
job: offset N: OffGrid
  A raster begins between two columns or two rows of the printer. (dots alone)
",
    },
    CauseText {
        name: "OffSheet",
        text: "\
job: offset N: OffSheet
  The page is longer than 22 inches, or a place is not on the sheet. (dots alone)
",
    },
    CauseText {
        name: "Overprint",
        text: "\
job: offset N: Overprint
  A dot falls where the same ink has one already. (dots alone)
",
    },
];
