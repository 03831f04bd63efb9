//! A picture of a site's records and links, in the language of Graphviz.
use crate::sets::lock_sets;
use ioc_fields::{LinkRole, RecordType, name_of};
use ioc_links::Mode;
use ioc_site::Reading;
use ioc_site_fields::gather;
use ioc_site_links::{Followed, Lead, follow_links};
use ioc_site_records::{Report, Site, SiteRecord};
use std::alloc::{AllocError, Global};
use std::fmt::Write;
use std::{fmt, str};

/// A name inside the quotes of Graphviz.
#[derive(Clone, Copy)]
struct Quoted<'a>(&'a [u8]);

impl fmt::Display for Quoted<'_> {
    fn fmt<W: fmt::Write>(&self, f: &mut fmt::Formatter<W>) -> fmt::Result {
        for b in self.0 {
            match *b {
                b'"' | b'\\' => write!(f, "\\{}", char::from(*b))?,
                b if b.is_ascii_graphic() || b == b' ' => f.write_char(char::from(b))?,
                _ => f.write_char('?')?,
            }
        }
        Ok(())
    }
}

// Returns the colour of records of this type.
fn colour_of(record_type: Option<RecordType>) -> &'static str {
    match record_type {
        Some(RecordType::Longin) => "#cfe2f3",
        Some(RecordType::Int64in) => "#9fc5e8",
        Some(RecordType::Bi) => "#d9d2e9",
        Some(RecordType::Mbbi) => "#b4a7d6",
        Some(RecordType::Stringin) => "#d0e0e3",
        Some(RecordType::Longout) => "#fce5cd",
        Some(RecordType::Int64out) => "#f9cb9c",
        Some(RecordType::Bo) => "#f4cccc",
        Some(RecordType::Mbbo) => "#ea9999",
        Some(RecordType::Stringout) => "#fff2cc",
        Some(RecordType::Fanout) => "#d9ead3",
        Some(RecordType::Event) => "#b6d7a8",
        Some(RecordType::Ai) => "#c9daf8",
        Some(RecordType::Ao) => "#f6b26b",
        Some(RecordType::Calc) => "#ead1dc",
        Some(RecordType::Calcout) => "#d5a6bd",
        Some(RecordType::Sel) => "#a2c4c9",
        None => "#eeeeee",
    }
}

// Returns the style of a link: bold where it processes a record next, dashed where it processes
// none.
fn style_of(lead: &Lead<'_>) -> &'static str {
    match lead.role {
        LinkRole::Forward => "bold",
        _ if lead.flags.process_passive => "solid",
        _ => "dashed",
    }
}

// Appends the node of a record.
fn add_node(record: &SiteRecord<'_>, text: &mut String) -> Result<(), AllocError> {
    let name = Quoted(record.name.text.as_slice());
    let kind = Quoted(record.type_word.text.as_slice());
    let colour = colour_of(record.record_type);
    write!(text, "    \"{name}\" [")?;
    writeln!(text, "label=\"{name}\\n{kind}\", fillcolor=\"{colour}\"];")
}

// Appends the edge of a link, from the record that has it. The arrow of a link that is read is at
// the reader.
fn add_edge(site: &Site<'_>, lead: &Lead<'_>, text: &mut String) -> Result<(), AllocError> {
    let (Some(from), Some(to)) = (site.records.get(lead.from), site.records.get(lead.to)) else {
        return Ok(());
    };
    let (owner, target) = (
        Quoted(from.name.text.as_slice()),
        Quoted(to.name.text.as_slice()),
    );
    let (field, style) = (name_of(lead.field), style_of(lead));
    write!(
        text,
        "  \"{owner}\" -> \"{target}\" [label=\"{field}\", style={style}"
    )?;
    if matches!(lead.role, LinkRole::Input | LinkRole::InputWithoutDevice) {
        text.push_str(", dir=back")?;
    }
    if lead.flags.mode != Mode::Nms {
        text.push_str(", color=red")?;
    }
    text.push_str("];\n")
}

// Appends the box of a lock set.
fn add_box(
    site: &Site<'_>,
    number: usize,
    set: &[usize],
    text: &mut String,
) -> Result<(), AllocError> {
    writeln!(text, "  subgraph cluster_{number} {{")?;
    for record in set {
        if let Some(record) = site.records.get(*record) {
            add_node(record, text)?;
        }
    }
    text.push_str("  }\n")
}

/// Appends a picture of the records that the statements give, as a text for Graphviz' `dot`: a node
/// for each record, a box round each lock set, and an edge for each link. FLNK and the links of a
/// fanout are bold, links with PP solid and with NPP dashed, and links that pass alarms on are red.
///
/// # Errors
///
/// [`AllocError`] if allocation fails.
pub fn add_picture(alloc: Global, reading: &Reading, text: &mut String) -> Result<(), AllocError> {
    let mut report = Report::new(alloc, reading)?;
    let site = gather(reading, &mut report)?;
    let Followed { leads, .. } = follow_links(&site, &mut report)?;
    let sets = lock_sets(alloc, leads.as_slice(), site.records.len())?;
    text.push_str("digraph site {\n  rankdir=LR;\n")?;
    text.push_str("  node [shape=box, style=filled];\n")?;
    for (number, set) in sets.iter().enumerate() {
        add_box(&site, number, set.as_slice(), text)?;
    }
    for lead in leads.iter() {
        add_edge(&site, lead, text)?;
    }
    text.push_str("}\n")
}
