//! A site's database files as one text that the programs load: the words of a command line that name the
//! files, what is left out of them by `--adapt`, and what is printed of their mistakes.
#![tactic(auto)]

mod adapting;
mod constants;
mod database;
mod disk;
mod fault;
mod instances;
mod left_out;
mod losses;
mod notes;
mod printing;
mod refusing;
mod site_words;
mod skipped;
mod verdict;

pub use adapting::Adapted;
pub use database::{JudgedSite, SiteText, judged_site, read_site, site_text, with_adaption};
pub use disk::Disk;
pub use fault::{SiteFault, ended};
pub use left_out::{Kept, LeftOutTypes, leave_out};
pub use printing::{Counts, add_adapted, add_findings};
pub use site_words::{HELP, SiteWords, names_site};
pub use skipped::{WayOut, add_skipped};
pub use verdict::{Verdict, judged_text};
