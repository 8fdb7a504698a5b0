//! What the program says about itself.
use program_words::{CAUSES, ProgramTexts};

const HELP: &str = "\
jinthbao spool - prints PWG Raster files of several senders on one printer, as ESC/P2 jobs

usage: jinthbao-spool [profile=NAME] [kernel=NAME] [grain=NUMBER] [workers=NUMBER]
                      send=FILE,.. [send=FILE,..]..
       jinthbao-spool --help [CAUSE] | --version

Each word send= is a sender, from 1 to 8 of them, with 1 to 64 files of the current folder. All files are read before
the first is printed, at most 268435456 bytes of each and 2147483648 of all. Each file is a job, and the jobs are
printed one after another to standard output. Those of a sender are printed in its order; which sender's is printed
first is left open. It is a desk for one machine and one call: several machines, and jobs that outlive the program,
are the work of a print server such as CUPS.

profile=NAME    tiny1, tiny, p360k, p360cmyk, p720cmyk, or a file of the current folder
                (default p360cmyk)
kernel=NAME     fs (Floyd and Steinberg), jjn (Jarvis, Judice and Ninke) or stucki (default fs)
grain=NUMBER    0 to 32 (default 0): evens out flat colours
workers=NUMBER  1 to 64 (default 1): so many threads halftone a page and code its rows, and one of them reads and
                writes; the jobs are the same for each number

Standard error gets a line for each job that ran, in order:

job SENDER.NUMBER: status N, pages N
                                     the status of its print: 0 done, 3 its file is refused, 5 a write failed, 7 out of
                                     memory; and how many pages were written whole

exit status and last line on standard error:
0  none                              every job was printed
1  usage: word N: CAUSE              a word of the command line is refused
2  profile: line N: CAUSE            the profile is refused, at line 0 as a whole
3  file: sender N job N: CAUSE       a file is absent or too long; nothing was printed
4  read failed                       a read of a file failed; nothing was printed
5  write failed: sender N job N page N
                                     a write failed; later jobs were not printed
7  out of memory                     memory ran out, before all jobs or in one of them
9  jobs failed: N                    all jobs ran, and so many ended in status 3

jinthbao-spool --help CAUSE says what a cause means, what is allowed, and what to do:
1  NotKeyValue UnknownKey RepeatedKey BadValue NoSend
2  as of jinthbao print
3  Absent TooLong
";

const VERSION: &str = "jinthbao spool 1.1.0\n";

/// What `--help`, with a cause or alone, and `--version` ask for.
pub const TEXTS: ProgramTexts = ProgramTexts {
    help: HELP,
    version: VERSION,
    causes: &CAUSES,
};
