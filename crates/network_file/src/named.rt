//! A file as it is written: switches and links by names.

ghost use Rattle.std.specs.Prelude.{◌≡◌, map, option_map, IfOk};
ghost use Rattle.std.specs.List.{list_all};
ghost use Rattle.serde_json.specs.View.{view};
ghost use Rattle.json_parts.specs.Paths.{item_below};
ghost use Rattle.json_parts.specs.Views.{Gives, texts};
ghost use Rattle.network_file.specs.Named as named;
ghost use Rattle.network_file.specs.Views.{file_view, link_view, link_views};

use json_parts::{Members, ShapeFault, item_path, list_of};
use lex_text::Name;
use serde_json::Value;
use std::alloc::{AllocError, Global};

/// A link: the names of its switches, each with a port.
#[derive(Clone, Copy, Debug)]
pub(crate) struct NamedLink<'a> {
    pub one: &'a str,
    pub one_port: u64,
    pub other: &'a str,
    pub other_port: u64,
}

/// What a file says.
#[derive(Debug, Drop)]
pub(crate) struct NamedFile<'a> {
    pub switches: Vec<&'a str>,
    pub links: Vec<NamedLink<'a>>,
}

fn is_name_byte(byte: u8) -> bool
    ensures { result ≡ named.is_name_byte byte }
{
    byte.is_ascii_alphanumeric() || byte == b'_'
}

fn has_name_bytes(bytes: &[u8]) -> bool
    ensures { result ≡ list_all named.is_name_byte bytes.now }
{
    bytes.iter().all(|byte| is_name_byte(*byte))
}

/// Whether the text has 1 to 32 letters, digits and `_`.
fn is_name(text: &str) -> bool
    ensures { result ≡ named.is_name text.now }
{
    if text.is_empty() || text.len() > 32 {
        return false;
    }
    has_name_bytes(text.as_bytes())
}

fn name_of(value: &Value) -> Option<&str>
    ensures { option_map (λ s. s.now) result ≡ named.name_of (view value.now) }
{
    value.as_str().filter(|text| is_name(text))
}

fn part_path(alloc: Global, link: usize, part: usize) -> Result<Name, AllocError>
    ensures { IfOk result (λ p. p ≡ item_below (named.link_path link) part) }
{
    let path = item_path(alloc, "/links", link)?;
    item_path(alloc, path.as_str(), part)
}

fn name(alloc: Global, link: usize, part: usize, value: &Value) -> Result<&str, ShapeFault>
    ensures { Gives (λ s. s.now) result
        (named.name_at (item_below (named.link_path link) part) (view value.now)) }
{
    match name_of(value) {
        Some(name) => Ok(name),
        None => Err(ShapeFault::Shape {
            path: part_path(alloc, link, part)?,
        }),
    }
}

fn port(alloc: Global, link: usize, part: usize, value: &Value) -> Result<u64, ShapeFault>
    ensures { Gives (λ n. n) result
        (named.port_at (item_below (named.link_path link) part) (view value.now)) }
{
    match value.as_u64() {
        Some(port) => Ok(port),
        None => Err(ShapeFault::Shape {
            path: part_path(alloc, link, part)?,
        }),
    }
}

#[tactic(auto, unfolding(crate::specs::Named::link_at))]
fn link(alloc: Global, number: usize, value: &Value) -> Result<NamedLink<'_>, ShapeFault>
    ensures { Gives link_view result (named.link_at number (view value.now)) }
{
    let Some([one, one_port, other, other_port]) = list_of(value) else {
        return Err(ShapeFault::Shape {
            path: item_path(alloc, "/links", number)?,
        });
    };
    Ok(NamedLink {
        one: name(alloc, number, 0, one)?,
        one_port: port(alloc, number, 1, one_port)?,
        other: name(alloc, number, 2, other)?,
        other_port: port(alloc, number, 3, other_port)?,
    })
}

fn links(alloc: Global, list: &[Value]) -> Result<Vec<NamedLink<'_>>, ShapeFault>
    ensures { Gives (λ v. link_views v.items) result (named.links_of (map view list.now)) }
{
    let mut links = Vec::new(alloc);
    for (i, value) in list.iter().enumerate() {
        links.push(link(alloc, i, value)?)?;
    }
    Ok(links)
}

fn switch(alloc: Global, number: usize, value: &Value) -> Result<&str, ShapeFault>
    ensures { Gives (λ s. s.now) result (named.switch_at number (view value.now)) }
{
    match name_of(value) {
        Some(name) => Ok(name),
        None => Err(ShapeFault::Shape {
            path: item_path(alloc, "/switches", number)?,
        }),
    }
}

fn switches(alloc: Global, list: &[Value]) -> Result<Vec<&str>, ShapeFault>
    ensures { Gives (λ v. texts v.items) result (named.switches_of (map view list.now)) }
{
    let mut switches = Vec::new(alloc);
    for (i, value) in list.iter().enumerate() {
        switches.push(switch(alloc, i, value)?)?;
    }
    Ok(switches)
}

/// What the value says, as a file is written.
#[tactic(auto, unfolding(crate::specs::Named::file_of))]
pub(crate) fn named_file(alloc: Global, value: &Value) -> Result<NamedFile<'_>, ShapeFault>
    ensures { Gives file_view result (named.file_of (view value.now)) }
{
    let members = Members::new(alloc, "", &["links", "switches"], value)?;
    let links = links(alloc, members.list(alloc, "links")?)?;
    let switches = switches(alloc, members.list(alloc, "switches")?)?;
    members.end(alloc)?;
    Ok(NamedFile { switches, links })
}
