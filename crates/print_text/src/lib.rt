//! The printed texts of models, views, markers, selections and refusals.
#![tactic(auto)]

pub mod marks;
pub mod model;
pub mod refusals;
pub mod selection;
pub mod view;
