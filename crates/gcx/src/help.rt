//! The texts of help and version, and when they are asked for. They are no part of what is proved.
use gcx_base::Text;

/// What `--version` writes.
const VERSION: &str = "gcx 0.2.0\n";

/// What `--help` writes.
const HELP: &str = "\
gcx answers a query over an XML document while it reads it.

Usage:
  gcx run [--trace] [--ahead K] QUERY DOC   write the answer as it is settled
  gcx whole QUERY DOC                       read all of DOC, then write the answer
  gcx explain QUERY                         write the plan of the query
  gcx peak QUERY DOC                        write how many nodes a run holds
  gcx gen SEED N                            write a document of N items
  gcx selfrun SEED N                        run a query over that document
  gcx many DOC QUERY OUT ..                 write the answer of each QUERY into its OUT
  gcx check QUERY DOC TRACE                 judge a trace that run --trace wrote

QUERY, DOC and TRACE are names of files; - is standard input. After -- all
arguments are names or numbers. SEED is 0 to 4294967295, N is 1 to 100000.
many reads DOC once, for up to 16 pairs of QUERY and OUT. Each OUT is a file, and
is emptied before DOC is read: so is DOC where an OUT is DOC by another name.
A query on the command line, in bash:  gcx run <(echo '/bib/book/title') bib.xml

Options of run:
  --trace      write on standard error when each node comes and goes
  --ahead K    feed up to K tokens before the next write, 1 to 1000; not with --trace

--help, -h or help as the first word, or --help or -h after a command, prints
this text; --version or -V as the first word prints the version. Both end
with 2.

Exit status:
  0  all was written          2  the words are not a command line
  3  QUERY is not accepted    4  DOC is not accepted
  5  read fault               6  write fault
  7  out of memory            8  TRACE is another trace
Where it isn't 0, one line on standard error says why. The language, and what
each line means: man gcx.
";

/// The names of the commands.
const COMMANDS: [&str; 8] = [
    "run", "whole", "explain", "peak", "gen", "selfrun", "many", "check",
];

fn is_command(word: &Text) -> bool {
    let mut found = false;
    for name in COMMANDS {
        found = found || word.as_str() == name;
    }
    found
}

/// Whether `--help` or `-h` is among the words; behind `--` it is a name.
fn has_help(words: &[Text]) -> bool {
    for word in words {
        let word = word.as_str();
        if word == "--" {
            return false;
        }
        if word == "--help" || word == "-h" {
            return true;
        }
    }
    false
}

/// The text that words ask for which are no command line: that of the version by their first word, that of help by their
/// first word, or by `--help` or `-h` behind a command.
pub(crate) fn text_asked_for(words: &[Text]) -> Option<&'static str> {
    let (first, rest) = words.split_first()?;
    let word = first.as_str();
    if word == "--version" || word == "-V" {
        return Some(VERSION);
    }
    let is_asked = word == "--help" || word == "-h" || word == "help";
    if is_asked || (is_command(first) && has_help(rest)) {
        return Some(HELP);
    }
    None
}
