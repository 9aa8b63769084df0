//! The example in the documentation of hdt_usage.

use crate::example_fault::ExampleFault;
use hdt_usage::make_command_table;
use std::alloc::Global;

/// Of the crate.
pub(crate) fn crate_example<'a>(
    alloc: Global,
    roles: &'a [&'a str],
    words: &'a [&'a str],
) -> Result<bool, ExampleFault> {
    let command = make_command_table(alloc, roles)?; // the roles' names, as subject, predicate, object
    let matches = command.try_get_matches_from(words);
    Ok(matches.is_ok())
}
