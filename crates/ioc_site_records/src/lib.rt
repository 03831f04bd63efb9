//! The records of a site, as its statements give them, and the list of what is found in them.
#![tactic(auto)]

mod fields;
mod known;
mod report;
mod site;
mod wording;

pub use fields::{FieldOf, settable_names};
pub use known::{
    device_types, left_out_choice, left_out_device_type, left_out_field, left_out_link_word,
    left_out_type, link_words, types,
};
pub use report::Report;
pub use site::{Alias, At, Named, Setting, Site, SiteRecord};
pub use wording::{Instead, Listed, Meant, Shown};
