//! The words and lists that the sections of a design share, and the faults of a design.
#![tactic(auto)]

mod faults;
mod layers;
mod lengths;
mod marks;
mod names;
mod new_names;
mod pcb;
mod places;
mod rules;
mod shapes;
mod units;
mod words;

pub use faults::{DesignFault, DesignKind, ReadWhy, fault, refused};
pub use layers::{layer_at, layers_at, stands_for_all};
pub use lengths::{length_at, width_at};
pub use marks::{Mark, Marks};
pub use names::NameSet;
pub use new_names::{check_fresh, check_new};
pub use pcb::{Place, Section, Title, section_of, title_of};
pub use places::{Coordinates, coordinates_at};
pub use rules::{Rule, read_clearances, read_rule};
pub use shapes::{Circle, Path, circle_at, path_at, point_at, read_trail};
pub use units::{unit_at, unit_for};
pub use words::{
    Found, Head, add_names, all_names, is_word, next_list, only_word, opening, read_over, word_at,
};
