//! What the program says about itself.
use program_words::{CAUSES, ProgramTexts};

const HELP: &str = "\
jinthbao-finish - passes ESC/P2 jobs on, and ends the page where a job is cut

usage: jinthbao-finish [pages=1] [progress=1] [stop=NAME] < job.prn > printer
       jinthbao-finish --help [CAUSE] | --version

It stands between a driver and a printer: it reads a job from standard input and passes each command on to standard
output as soon as the command is whole. Where its input ends, fails, or is no command, it drops the command that was
cut, ends the page, and stops. It needs no profile.

pages=1         a line on standard error for each page whose form feed was passed on, with the dots of each ink:
                page 3: k 120, c 44, m 51, y 0
                for a page that was cut, and whose margins were set, the same line behind 'cut'
progress=1      a line for each tenth of a page's length that the head has passed: page 3 at 40
stop=NAME       before each page it looks for a file of this name in the current folder; if the file is there, it
                passes nothing more on
                Keys stand in any order, each at most once.

exit status and line on standard error:
0  none                     done, also if the input was cut, or the file to stop was there
1  usage: word N: CAUSE     a word of the command line is refused
4  read failed              a read failed; the page was ended
5  write failed: page N     a write failed
7  out of memory            memory ran out
8  job: offset N: CAUSE     the input is no list of commands; the page was ended

jinthbao-finish --help CAUSE says what a cause means:
1  NotKeyValue UnknownKey RepeatedKey BadValue
8  Unknown BadLength BadValue RunCode TooLong
";

const VERSION: &str = "jinthbao-finish 1.1.0\n";

/// What `--help`, with a cause or alone, and `--version` ask for.
pub const TEXTS: ProgramTexts = ProgramTexts {
    help: HELP,
    version: VERSION,
    causes: &CAUSES,
};
