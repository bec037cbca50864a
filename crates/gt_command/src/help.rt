//! What the command tells of itself.

ghost use Rattle.std.specs.Prelude.{◌≡◌, map, string_bytes};
ghost use Rattle.gt_command.specs.Help.{info_named, info_of, info_text};

/// What a command line asks to be told.
#[derive(Clone, Copy, Debug, PartialEq, Eq)]
pub enum Info {
    /// `--help`: the usage.
    Help,
    /// `--version`: the version.
    Version,
}

/// What the words ask to be told: `--help` or `--version`, alone or after a command that is built. Other words ask for no such thing.
pub fn asked_info(words: &[String]) -> Option<Info>
    ensures { result ≡ info_of (map string_bytes words.now) }
{
    match words {
        [option] => info_named(option.as_bytes()),
        [command, option] if command.as_bytes() == b"sim".as_slice() => info_named(
            option.as_bytes(),
        ),
        _ => None,
    }
}

fn info_named(option: &[u8]) -> Option<Info>
    ensures { result ≡ info_named option.now }
{
    if option == b"--help".as_slice() {
        Some(Info::Help)
    } else if option == b"--version".as_slice() {
        Some(Info::Version)
    } else {
        None
    }
}

/// The text that is told.
pub fn info_text(info: Info) -> &'static str
    ensures { result.now ≡ info_text info }
{
    match info {
        Info::Help => HELP,
        Info::Version => VERSION,
    }
}

const VERSION: &str = "gotime 0.2.0\n";

const HELP: &str = "\
gotime runs scripts of goroutines on Go's timer system and prints what happens.\n\
\n\
usage:\n\
\x20 gotime sim [-l LIMIT] < SCRIPT\n\
\x20 gotime [sim] --help\n\
\x20 gotime [sim] --version\n\
\n\
commands:\n\
\x20 sim          reads a script from standard input, runs it, and writes its trace\n\
\x20              to standard output; the clock jumps to what comes next\n\
\n\
options of sim:\n\
\x20 -l LIMIT     end the run after LIMIT entries: 1 to 200,000 (default 10,000)\n\
\n\
exit status:\n\
\x20 0            the run ended with exit, or help or the version was asked for\n\
\x20 2, 3, 4      the run ended with deadlock, panic, limit\n\
\x20 64           the words are no command line\n\
\x20 65           standard input is no script\n\
\x20 66           standard input is above 67,108,864 bytes\n\
\x20 71           memory ran out\n\
\x20 73, 74       a read failed, a write failed\n\
Each of 64 to 74 has a line on standard error that says why.\n\
\n\
The script language, traces and faults are told in README.md and docs/ of the\n\
repository; scripts with their traces are in examples/.\n";
