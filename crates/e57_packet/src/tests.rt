//! Layouts with the bytes that a standard file has.

use crate::*;

#[test]
fn headers_as_bytes(rt: HostRuntime) {
    let mut section = [255; 32];
    let header = SectionHeader {
        id: 1,
        length: 352,
        data_place: 1104,
        index: 1376,
    };
    write_section_header(&header, &mut section);
    let wanted = [
        1, 0, 0, 0, 0, 0, 0, 0, 96, 1, 0, 0, 0, 0, 0, 0, 80, 4, 0, 0, 0, 0, 0, 0, 96, 5, 0, 0, 0,
        0, 0, 0,
    ];
    assert_eq!(rt; section, wanted);
    assert_eq!(rt; read_section_header(&section), header);

    let mut blob = [255; 16];
    write_blob_header(&BlobHeader { id: 0, length: 21 }, &mut blob);
    assert_eq!(rt; blob, [0, 0, 0, 0, 0, 0, 0, 0, 21, 0, 0, 0, 0, 0, 0, 0]);
    assert_eq!(rt; read_blob_header(&blob), BlobHeader { id: 0, length: 21 });
}

#[test]
fn packets_as_bytes(rt: HostRuntime) {
    let mut head = [255; 4];
    write_packet_head(
        &PacketHead {
            sort: 1,
            flags: 1,
            length: 65536,
        },
        &mut head,
    );
    assert_eq!(rt; head, [1, 1, 255, 255]);
    assert_eq!(rt;
        read_packet_head(&head),
        Ok(PacketHead {
            sort: 1,
            flags: 1,
            length: 65536
        })
    );

    let packet = [1, 1, 19, 0, 2, 0, 3, 0, 7, 0, 1, 2, 3, 1, 2, 3, 4, 5, 6, 7];
    let mut ends = [9; 2];
    assert!(rt; read_data_lengths(&packet, 2, &mut ends).is_ok());
    assert_eq!(rt; ends, [13, 20]);
    let mut lengths = [0; 6];
    write_data_lengths(&[3, 7], &mut lengths);
    assert_eq!(rt; lengths, [2, 0, 3, 0, 7, 0]);

    let mut index = [255; 12];
    write_index_head(
        &IndexHead {
            entries: 2048,
            level: 1,
        },
        &mut index,
    );
    assert_eq!(rt; index, [0, 8, 1, 0, 0, 0, 0, 0, 0, 0, 0, 0]);
    let bytes = [0, 0, 31, 0, 1, 0, 5, 0, 0, 0, 0, 0, 0, 0, 0, 0];
    assert_eq!(rt;
        read_index_head(&bytes),
        Ok(IndexHead {
            entries: 1,
            level: 5
        })
    );
    let mut entry = [255; 16];
    write_entry(
        &Entry {
            first: 256,
            place: 1104,
        },
        &mut entry,
    );
    assert_eq!(rt; entry, [0, 1, 0, 0, 0, 0, 0, 0, 80, 4, 0, 0, 0, 0, 0, 0]);
    assert_eq!(rt;
        read_entry(&entry),
        Entry {
            first: 256,
            place: 1104
        }
    );
}
