//! A project's program as the listing that a maker prints.
ghost use Rattle.listings.specs.Listing.{Lists, ListsWithinNeeds, NeedsIn, NeedsOf};

use crate::code::listing_text;
use headers::header::read_project;
use loading::load::{Failure, load, tokens_of};
use semantics::{Needs, needs};
use std::alloc::Global;
use syntax::parse;

/// What the program that tokens are needs.
fn needs_in(tokens: &[u16]) -> Result<Needs, Failure>
    ensures { NeedsIn tokens.now result }
{
    let tree = parse(tokens).map_err(Failure::Program)?;
    Ok(needs(&tree))
}

/// What the program of a project needs.
// Read and cut anew, since a loaded project holds only what the machine and the controller take.
fn needs_of(heap: Global, project: &str) -> Result<Needs, Failure>
    ensures { NeedsOf project.now result }
{
    let header = read_project(project)?;
    let tokens = tokens_of(heap, header.program)?;
    needs_in(tokens.as_slice())
}

/// The listing of a project's code, and what it needs.
pub fn listing(heap: Global, project: &str) -> Result<String, Failure>
    ensures lists { Lists project.now result }
    ensures within { ListsWithinNeeds project.now result }
{
    let loaded = load(heap, project)?;
    let needs = needs_of(heap, project)?;
    Ok(listing_text(heap, loaded.code.as_slice(), needs)?)
}
