//! The links between the records of a database.
ghost use Rattle.std.specs.Prelude.{◌≡◌, ◌++◌, ◌<◌, length, All, IfOk, OnOk};
ghost use Rattle.std.specs.List.{enumerate_from};
ghost use Rattle.ioc_dbcommon.specs.Links.{named_by_field};
ghost use Rattle.ioc_record.specs.RecordRules.{targets};
ghost use Rattle.rec_types.specs.Record.{record_rules};
ghost use Rattle.ioc_sim.specs.Sets.{joined_to, joined_by};
ghost use Rattle.std.specs.Prelude.{option_to_list};

use ioc_fields::FieldNo;
use ioc_graph::Edge;
use ioc_names::RecordNo;
use ioc_record::RecordKind;
use rec_types::Record;
use std::alloc::{AllocError, Global};

// Returns the record that a link field leads to, if there is one.
fn target_of(record: &Record, field: FieldNo) -> Option<RecordNo>
    ensures { option_to_list result ≡ named_by_field (record_rules.link record.now field) }
{
    match record.link(field) {
        Some(link) => link.record_named(),
        None => None,
    }
}

// Adds an edge for each link of a record that leads to a record.
fn add_links(edges: &mut Vec<Edge>, number: RecordNo, record: &Record) -> Result<(), AllocError>
    ensures { OnOk result (edges.new.items ≡ edges.old.items ++ joined_to number (targets record_rules record.now)) }
{
    let mut rest = record.link_fields();
    while let [field, others @ ..] = rest {
        if let Some(target) = target_of(record, *field) {
            edges.push(Edge {
                from: number,
                to: target,
            })?;
        }
        rest = others;
    }
    Ok(())
}

/// Returns an edge for each link between these records, which are numbered from 0 on.
///
/// # Errors
///
/// [`AllocError`] if allocation fails.
pub fn links_of(alloc: Global, records: &[Record]) -> Result<Vec<Edge>, AllocError>
    ensures { IfOk result (λ edges. edges.items ≡ joined_by record_rules (enumerate_from 0 records.now)) }
{
    let mut edges = Vec::new(alloc);
    let mut rest = records;
    let mut number = 0;
    while let [record, others @ ..] = rest {
        add_links(&mut edges, RecordNo::new(number), record)?;
        number += 1;
        rest = others;
    }
    Ok(edges)
}
