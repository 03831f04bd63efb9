//! What a link change is made of.
use ioc_dbcommon::LinkBox;
use ioc_fields::FieldNo;
use ioc_names::RecordNo;

/// A change of a link of a record to another link.
#[derive(Drop)]
pub struct LinkChange {
    /// The record whose link is changed.
    pub number: RecordNo,
    /// The field that holds the link.
    pub field: FieldNo,
    /// The new link.
    pub link: LinkBox,
    /// An equal link, for the record from which the set's history leads on.
    pub base_link: LinkBox,
    /// The moment of the change.
    pub moment: u64,
}
