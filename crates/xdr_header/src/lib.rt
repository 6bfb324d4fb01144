//! The encodings of ledger headers, of the records that close ledgers and of the images that ledgers start from, read
//! and written. Headers and values are those of protocols 18 and 19 (over RFC 4506); the record and the image are this
//! ledger's own.
#![tactic(auto)]

mod closing;
mod header;
mod image;
pub mod laws;
mod record;
mod starting;
mod value;
mod vouch;

pub use closing::{FORM_2, read_close_record, write_close_record};
pub use header::{
    read_ledger_header, read_ledger_header_extension_v1, write_ledger_header,
    write_ledger_header_extension_v1,
};
pub use image::StartImage;
pub use record::CloseRecord;
pub use starting::{read_file, read_start_image, write_start_image};
pub use value::{
    read_ledger_close_value_signature, read_ledger_upgrade, read_stellar_value,
    write_ledger_close_value_signature, write_ledger_upgrade, write_stellar_value,
};
pub use vouch::{VouchFormat, read_vouch, write_vouch};
