//! Flags of a command line, which are given or not.
ghost use Rattle.std.specs.Prelude.{◌≡◌, false};
ghost use Rattle.clap.specs.Words.{first_of, found_of, rows_of, rule_of};
ghost use Rattle.ioc_command_line.specs.Flags.{flag_rule, is_true};

use clap::{Arg, ArgAction, ArgMatches};
use std::alloc::Global;

/// Returns the flag `--NAME`.
pub fn flag<'a>(alloc: Global, name: &'a str, help: &'a str) -> Arg<'a>
    ensures rule { rule_of result ≡ flag_rule name.entry.now }
    ensures local { result.global ≡ false }
{
    Arg::new(alloc, name)
        .long(name)
        .action(ArgAction::SetTrue)
        .help(help)
}

/// Returns whether a flag is given.
pub fn is_given(matches: &ArgMatches<'_>, name: &str) -> bool
    ensures { result ≡ is_true (first_of name.now (rows_of (found_of matches.now))) }
{
    match matches.get_str(name) {
        Some(word) => word.as_bytes() == b"true".as_slice(),
        None => false,
    }
}
