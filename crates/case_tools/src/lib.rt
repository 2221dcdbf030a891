//! Cases: what is tried, and what is expected of it. A program gives the tools (`Tools`) and names the
//! files (`run_files`).
//!
//! In a file of cases a line that begins with `#` says nothing, and an empty line ends a case. A line
//! that is not understood ends the program, with the name of its case on standard error.
//!
//! A command begins with `case NAME`. Each other line of it is one of these, in any order:
//!
//! ```text
//! tool NAME           which tool runs
//! word TEXT           one more word of the command
//! file NAME TEXT      a file of the shelf, whose name ends at the first space
//! repeat N TEXT       the text N times more at the end of the last file
//! traces N            there, a line for each trace of N letters, each of which is {} or {a}
//! piece N             how many bytes one read gives at most
//! fail-shelf N N ..   the opens and reads that fail, counted together from 1
//! fail-out N N ..     the puts of the output that fail, counted from 1
//! fail-err N N ..     the puts of the error text that fail, counted from 1
//! room N              how many bytes each of the two texts has room for
//! most N              how many bytes one put takes at most
//! status N            the exit status that is expected
//! out TEXT            what the output is to receive; nothing where no line says it
//! or TEXT             another text that the output may be in place of that
//! lassos N            behind that text the output is to have N lassos
//! satisfy TEXT        a formula that these lassos satisfy
//! violate TEXT        a formula that these lassos do not satisfy
//! check WORD WORD ..  words to which the checker accepts the output, which it finds as the file `out`
//!                     beside the files of the case; then that begins with the text of `out`
//! err TEXT            what the error stream is to receive; nothing where no line says it
//! ```
//!
//! A circuit begins with `circuit NAME`. Its text and what is expected of it follow:
//!
//! ```text
//! line TEXT           the text and a line feed
//! part TEXT           the text
//! fault KIND BYTE     the text is at fault
//! limit               its greatest variable is past the limit
//! copies N            the net is N copies of that of the text
//! oracles FORMULA     the net is that of the text with the oracles of the formula
//! safe FORMULA        the net is the safe net of the formula on that of the text
//! counts NUMBERS      how many inputs, latches and fairness literals the net has
//! aag TEXT            one more line of the net, as it is printed in ASCII
//! aig TEXT            one more line of it, as it is printed in the binary form
//! aig-part TEXT       more of that without a line feed
//! run FIRST STEM CYCLE ROWS    what all variables do in a run; `no-lasso` where it is none
//! ```
//!
//! A net is printed in both forms in any case, and what is printed has to read back and be printed
//! the same.
//!
//! A text stands for its bytes, with `\n`, `\t`, `\r`, `\\` and `\xHH` for those that a line cannot
//! show.
#![tactic(auto)]

mod case;
mod checking;
mod circuit_report;
mod circuits;
mod command_report;
mod commands;
mod escape;
mod files;
mod lassos;
mod piece_shelf;
mod runs;
mod tally;
mod tools;
mod trial;

pub use files::run_files;
pub use piece_shelf::PieceShelf;
pub use tools::Tools;
