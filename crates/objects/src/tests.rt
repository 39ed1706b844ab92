// One record written, read and copied: where its words stand, and that all around them stays.
use crate::{NOTHING, copy_object, copy_out, data_address, reference_address, write_new};
use layout::product::Product;
use layout::{Layout, Shape};
use std::process::Abort;
use std::test::Fail;

#[test]
fn a_new_record_is_read_where_it_stands(rt: HostRuntime) -> Result<(), Fail> {
    let shape = Shape {
        kind: 0,
        refs: 2,
        words: 3,
    };
    let header = Product::header(shape).ok_or("refused")?;
    assert_eq!(rt; Product::size(header), 6);
    let mut words = [7; 8192];
    write_new::<Product>(&mut words, 100, header);
    let written = [7, header, NOTHING, NOTHING, 0, 0, 0, 7];
    assert_eq!(rt; &words[99..107], written.as_slice());
    for (i, address) in [(0, Some(101)), (1, Some(102)), (2, None)] {
        assert_eq!(rt; reference_address::<Product>(&words, 100, i), address);
    }
    for (j, address) in [(0, Some(103)), (2, Some(105)), (3, None)] {
        assert_eq!(rt; data_address::<Product>(&words, 100, j), address);
    }
    words[103] = 30;
    words[105] = 50;
    copy_object(&mut words, 100, 200, 6);
    let mut buffer = [9; 4];
    assert_eq!(rt; copy_out::<Product>(&words, 200, &mut buffer), Some(3));
    assert_eq!(rt; buffer, [30, 0, 50, 9]);
    assert_eq!(rt; copy_out::<Product>(&words, 100, &mut buffer[..2]), None);
    assert_eq!(rt; buffer, [30, 0, 50, 9]);
    Ok(())
}
