//! The lattice of prefixes over the source and destination addresses of records.
#![tactic(auto)]

mod decimal;
mod grain;
mod kept_bits;
mod laws;
mod node;
mod prefix;
mod prefix_fault;
mod prefixes;
mod record;
mod record_list;
mod record_queue;
mod side_reading;
mod side_writing;

pub use decimal::number_of;
pub use grain::Grain;
pub use laws::{
    closest_lines_explain, covering_goes_up, grains_are_nested, kept_meets_stay_under,
    meets_are_greatest, prefix_texts_read_back, prefixes_are_ordered,
    prefixes_cover_their_own_addresses, report_order_is_total, staircase_law, uppers_are_above,
};
pub use node::Node;
pub use prefix::{
    Prefix, keys_are_of_their_node, keys_tell_covering, prefix_texts_have_one_reading,
};
pub use prefix_fault::{PrefixFault, Side};
pub use prefixes::Prefixes;
pub use record::Record;
pub use record_list::RecordList;
pub use record_queue::RecordQueue;
