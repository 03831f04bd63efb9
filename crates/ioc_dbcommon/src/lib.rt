//! What records of all types share: the common fields and the operations on them, link fields, the
//! inputs and outputs of types, and what a body requests.
#![tactic(auto)]

pub mod body;
pub mod body_box;
pub mod calculation;
pub mod common;
pub mod common_fields;
pub mod condition;
pub mod constant;
pub mod disabling;
pub mod drive;
pub mod laws;
pub mod link_box;
pub mod link_field;
pub mod parts;
pub mod raw;
pub mod scanning;
pub mod source;

pub use body::{Got, InputKind, Need, Output, Want};
pub use body_box::{BodyBox, Fresh};
pub use calculation::Calculation;
pub use common::{Common, disable_kind};
pub use condition::Condition;
pub use constant::constant_in;
pub use disabling::Disabling;
pub use drive::{Drive, drives, sets};
pub use laws::numbers_are_awaited_once;
pub use link_box::LinkBox;
pub use link_field::{FieldAddress, Lead, LinkField, LinkUse, StandingLink};
pub use parts::{
    dopt_in, double_in, int64_in, ivoa_in, linr_in, long_in, oif_in, omsl_in, oopt_in, pini_in,
    priority_in, scan_in, selmode_in, severity_in, short_in, state_in, text_in, uchar_in, ulong_in,
    ushort_in,
};
pub use raw::{raw_came, raw_constant, state_came, state_constant};
pub use scanning::Scanning;
pub use source::Source;
