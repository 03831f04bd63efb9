//! The record types with states: bi and bo, with two states, and mbbi and mbbo, with sixteen.
#![tactic(auto)]

pub mod bits;
pub mod input;
pub mod output;
pub mod sixteen_states;
pub mod slots;
pub mod state_fields;
pub mod states;
pub mod two_states;

pub use input::{Bi, Mbbi, StateInput};
pub use output::{Bo, Mbbo, StateOutput};
pub use sixteen_states::SixteenStates;
pub use state_fields::StateFields;
pub use states::States;
pub use two_states::TwoStates;
