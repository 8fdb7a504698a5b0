//! What the program says about itself.
use program_words::{CAUSES, ProgramTexts};

const HELP: &str = "\
jinthbao - prints PWG Raster pages as ESC/P2 jobs, and shows what such jobs print

usage: jinthbao print [profile=NAME] [kernel=NAME] [grain=NUMBER] [workers=NUMBER] [cap=NUMBER]
                      [shingle=1 | dead=NUMBER,..] < pages.pwg > job.prn
       jinthbao dots [profile=NAME] [most=NUMBER] < job.prn > images.pbm
       jinthbao list [most=NUMBER] < job.prn
       jinthbao profile [profile=NAME]
       jinthbao trial [profile=NAME] [kernel=NAME] [grain=NUMBER] [workers=NUMBER] [seed=NUMBER]
                      [pages=NUMBER] [width=NUMBER] [height=NUMBER] [kind=NAME] [shingle=1 | dead=NUMBER,..]
       jinthbao --help [CAUSE] | --version

print    reads pages from standard input (PWG Raster, PWG 5102.4; grey, black, RGB and CMYK of 8 bits a colour,
         black of one bit), separates and diffuses each, and writes their job to standard output
dots     reads a job from standard input, runs it on the profile's printer, and writes four images of each
         sheet (raw PBM, kind P4): black, cyan, magenta and yellow
list     reads a job from standard input, and writes a line for each command
profile  writes the text of a profile to standard output, with all keys: a text of version 1 as one of version 2
trial    makes pages of drawn lines, prints them into memory, runs the job on the profile's printer, and writes a line
         of what it counted: pages, sheets, bytes, rasters, and the dots of each ink; it reads no input

profile=NAME    tiny1, tiny, p360k, p360cmyk, p720cmyk, or a file of the current folder
                (default p360cmyk)
kernel=NAME     fs (Floyd and Steinberg), jjn (Jarvis, Judice and Ninke) or stucki (default fs)
grain=NUMBER    0 to 32 (default 0): evens out flat colours
workers=NUMBER  1 to 64 (default 1): so many threads halftone a page and code its rows, and one of them reads and
                writes; the job is the same for each number
cap=NUMBER      the most dots that the job may print, all inks together (default: no limit): a kiosk's quota,
                or what is left in a label desk's cartridge; a page that would go past it is not printed,
                and ends the job
shingle=1       each row is fired in two passes, one on its even columns and one on its odd ones (default 0: in one)
dead=NUMBER,..  nozzles that do not fire, counted from 0, in rising order; others fire their rows in further strokes
seed=NUMBER     0 to 4294967295 (default 1): the same seed makes the same pages
pages=NUMBER    1 to 16 (default 1)
width=NUMBER    1 to 8191 pixels (default 256), height=NUMBER 1 to 15840 (default 300)
kind=NAME       gray, black, rgb, black1 or cmyk (default gray)
most=NUMBER     the most bytes of a job that are taken, up to 17179869184 (the default)
                Keys stand in any order, each at most once.

exit status and line on standard error:
0  none                              done
1  usage: word N: CAUSE              a word of the command line is refused
2  profile: line N: CAUSE            the profile is refused, at line 0 as a whole
3  input: page N line N: CAUSE       the input is refused
4  read failed                       a read of the input or of the profile's file failed
5  write failed: page N              a write failed
6  over cap: page N: total N, page N, cap N
                                     a page would go past the cap: the dots before it, its own, the cap
7  out of memory                     memory ran out
8  job: offset N: CAUSE              the job is no list of commands, or the printer refuses one

jinthbao --help CAUSE says what a cause means, what is allowed, and what to do:
1  NoCommand UnknownCommand NotKeyValue UnknownKey RepeatedKey BadValue Together
2  Absent TooLong BadHead NotAscii NoEquals UnknownKey RepeatedKey BadValue Missing Resolution Nozzles Pitch
   NotCoprime RowStep TopMargin BlackStart Curve NoSuchNozzle AllDead NoShingle
3  BadSync Truncated NotPwg Resolution Width Height Kind BytesPerLine Order Transform RunPastLine
   GroupPastPage TooManyPages
8  Unknown BadLength BadValue RunCode Cut TooLong NotGraphics NoUnit NoMargins Density Rows Backward OffGrid
   OffSheet Overprint
";

const VERSION: &str = "jinthbao 1.1.0\n";

/// What `--help`, with a cause or alone, and `--version` ask for.
pub const TEXTS: ProgramTexts = ProgramTexts {
    help: HELP,
    version: VERSION,
    causes: &CAUSES,
};
