//! What a site's database files get wrong by the rules of this project, and what in them is worth a
//! look.
#![tactic(auto)]

mod checking;
mod picture;
mod sets;

pub use checking::{check, put_in_order};
pub use ioc_site_fields::{ExpressionFault, expression_fault};
pub use ioc_site_records::{left_out_field, left_out_type};
pub use picture::add_picture;
pub use sets::add_sets;
