//! The library in one place, for programs that read, judge or write E57 files (ASTM E2807). It has no code of its own: each
//! item comes from the crate whose README has its promises. docs/LIBRARY.md shows the shortest programs.
#![tactic(auto)]

/// How calls fail. A `Fault` is the first fault of a file, with its kind and two numbers, which docs/FORMAT.md explains.
pub mod faults {
    pub use e57_base::{
        AskFault, Failed, Fault, Kind, OpenFault, PutFault, ReadFault, RunFault, TextFault,
        WriteFault,
    };
    pub use e57_file_out::CopyFault;
}

/// Where bytes come from and where they go: files of the disk and streams, files in memory, and the traits that both meet,
/// for sources, targets and sinks of other kinds.
pub mod objects {
    pub use e57_base::{BytesSource, MemSink, MemSource, MemTarget, Octets, Sink, Source, Target};
    pub use e57_disk::{DiskSource, DiskTarget, StdSink};
}

/// An open file: `open_file` judges its length, its header and page 0, `E57::open` reads and judges its XML section.
/// `Pages` gives logical bytes, and no byte of a page with a wrong checksum.
pub mod files {
    pub use e57_file::E57;
    pub use e57_page::{Cut, Header, Pages, open_file, physical_of, place_of};
}

/// What a file describes: its elements, its clouds with their fields, its blobs.
pub mod trees {
    pub use e57_elements::{RawNode, RawTree};
    pub use e57_layout::{Field, FieldKind, Fixed};
    pub use e57_tree::{Blob, Cloud, Item, Tree};
}

/// The records of a cloud: `open_section` opens its section, and a `Column` reads the items of one field into buffers that
/// the caller lends. `FieldBlocks` reads several fields side by side, block by block.
pub mod records {
    pub use e57_blocks::{FieldBlock, FieldBlocks, Item, Run};
    pub use e57_column::{Column, Stopped, TextsRead};
    pub use e57_layout::Section;
    pub use e57_section::open_section;
}

/// The verdict on an open file: its first fault, or how many clouds, blobs and records it has; with the file's tree for who
/// reads on.
pub mod verdict {
    pub use e57_check::{Summary, check, judge};
}

/// A new file: a file written anew, whole or with a part of a cloud; one made of two numbers, as large as is wanted; its pages, the section of a cloud block by block,
/// records, clouds and blobs that are copied, its end; and trees with other limits, fields, records and counts.
pub mod writing {
    pub use e57_chunk_out::{CloudOut, Written, items_stand, new_cloud_stands};
    pub use e57_copy::{copy_item, copy_records};
    pub use e57_edits::{Range, with_cloud, with_counts, with_limits};
    pub use e57_file_out::{close_file, copy_blob};
    pub use e57_filter::{FilterAsk, Keep, filter};
    pub use e57_page_out::PagesOut;
    pub use e57_repack::repack;
    pub use e57_trial::{TrialFiles, build_trial, write_trial};
}
