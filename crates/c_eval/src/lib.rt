//! What a C text does, as definitions, and the laws that follow from them.
#![tactic(auto)]

mod laws;

pub use laws::{
    acts_are_numbered, ended_stays, going_is_out_of_fuel, more_fuel_extends, taken_bytes_decide,
    undefined_stays,
};
