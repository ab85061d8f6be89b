//! The order in the matches of `clap`.

ghost use Rattle.std.specs.Prelude.{◌≡◌, IfOk, codes, map, option_map, string_bytes};
ghost use Rattle.clap.specs.Words.{first_of, found_of, rows_of, subcommand_rows_of};
ghost use Rattle.edf_command.specs.Inside.Matches.{request_of, parsed_by};
ghost use Rattle.edf_command.specs.Arguments.{meaning};

use crate::order::{Order, read_place};
use clap::ArgMatches;
use std::alloc::{AllocError, Global};

/// Copies the texts to strings.
fn copied(alloc: Global, texts: &[&str]) -> Result<Vec<String>, AllocError>
    ensures { IfOk result (λ r. map string_bytes r.items ≡ map (λ s. s.now) texts.now) }
{
    let mut copies = Vec::new(alloc);
    for text in texts {
        copies.push(String::from_str(alloc, text)?)?;
    }
    Ok(copies)
}

/// Returns the value of that name.
fn value_in<'a>(values: &ArgMatches<'a>, name: &str) -> Option<&'a str>
    ensures { option_map (λ s. s.now) result ≡ first_of name.now (rows_of (found_of values.now)) }
{
    values.get_str(name)
}

fn take_in(alloc: Global, values: &ArgMatches<'_>) -> Result<Option<Order>, AllocError>
    ensures { IfOk result (λ r. option_map meaning r
        ≡ parsed_by (codes "take") (rows_of (found_of values.now))) }
{
    let Some(store) = value_in(values, "STORE") else {
        return Ok(None);
    };
    let Some(files) = values.get_strs("FILE") else {
        return Ok(None);
    };
    let store = String::from_str(alloc, store)?;
    let files = copied(alloc, files)?;
    Ok(Some(Order::Take { store, files }))
}

fn list_in(alloc: Global, values: &ArgMatches<'_>) -> Result<Option<Order>, AllocError>
    ensures { IfOk result (λ r. option_map meaning r
        ≡ parsed_by (codes "list") (rows_of (found_of values.now))) }
{
    let Some(store) = value_in(values, "STORE") else {
        return Ok(None);
    };
    let store = String::from_str(alloc, store)?;
    Ok(Some(Order::List { store }))
}

fn export_in(alloc: Global, values: &ArgMatches<'_>) -> Result<Option<Order>, AllocError>
    ensures { IfOk result (λ r. option_map meaning r
        ≡ parsed_by (codes "export") (rows_of (found_of values.now))) }
{
    let Some(store) = value_in(values, "STORE") else {
        return Ok(None);
    };
    let Some(place) = value_in(values, "PLACE") else {
        return Ok(None);
    };
    let Some(place) = read_place(place) else {
        return Ok(None);
    };
    let store = String::from_str(alloc, store)?;
    Ok(Some(Order::Export { store, place }))
}

fn convert_in(alloc: Global, values: &ArgMatches<'_>) -> Result<Option<Order>, AllocError>
    ensures { IfOk result (λ r. option_map meaning r
        ≡ parsed_by (codes "convert") (rows_of (found_of values.now))) }
{
    let Some(file) = value_in(values, "FILE") else {
        return Ok(None);
    };
    let file = String::from_str(alloc, file)?;
    Ok(Some(Order::Convert { file }))
}

/// Returns the order in the matches, or `None` where a PLACE names no place.
pub(crate) fn order_in(alloc: Global, matches: &ArgMatches<'_>) -> Result<Option<Order>, AllocError>
    ensures { IfOk result (λ r.
        option_map meaning r ≡ request_of (subcommand_rows_of matches.now)) }
{
    let Some((word, values)) = matches.subcommand() else {
        return Ok(None);
    };
    if word == "take" {
        return take_in(alloc, values);
    }
    if word == "list" {
        return list_in(alloc, values);
    }
    if word == "export" {
        return export_in(alloc, values);
    }
    if word == "convert" {
        return convert_in(alloc, values);
    }
    Ok(None)
}
