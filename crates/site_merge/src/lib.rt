//! One report over the stores of several sites, which captured their own traffic with the same settings: what is heavy in
//! the sum of all.
#![tactic(auto)]

mod captures;
mod fault;
mod laws;
mod putting;
mod reporting;
mod site_words;
mod sites;
mod status;
mod taking;
mod text;
mod weights;
mod words;

pub use fault::SiteFault;
pub use laws::{site_cuts_count_each_site, site_reports_are_decided};
pub use reporting::{SiteReport, site_report};
pub use site_words::{SiteOpt, SiteWords, SiteWordsRefusal};
pub use sites::run_sites;
pub use status::{SiteStatus, site_fault_line};
pub use words::site_paths;
