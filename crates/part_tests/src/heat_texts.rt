// The text of heat tables, written by hand.
use damon_types::{Row, Space, Target};
use heat_report::{Sizes, working_set, write_last, write_report};
use region_list::RowBuf;
use std::test::Fail;

// One page, which was accessed in the only pass of its aggregation.
#[test]
fn one_page_is_in_the_last_column(rt: HostRuntime) -> Result<(), Fail> {
    let alloc = rt.alloc();
    let space = Space::new(alloc, &[Target { base: 0, pages: 1 }])?;
    let mut rows = RowBuf::new(alloc, 1)?;
    rows.push(Row {
        target: 0,
        start: 0,
        pages: 1,
        count: 1,
        last: 0,
        age: 0,
    });
    let mut out = Vec::new(alloc);
    write_report::<8>(1, &rows, &space, 1, &mut out)?;
    let mut sizes = Sizes::new(alloc);
    sizes.push(working_set(&rows))?;
    write_last(&mut sizes, &mut out)?;
    assert_eq!(rt;
        out.as_slice(),
        b"heat 1 0 0 0 0 0 0 0 0 1\n\
          freq 1 0 0 0 0 0 0 0 0 0 0 1\n\
          wss 1 1\n\
          all reports=1 least=1 median=1 greatest=1\n"
            .as_slice()
    );
    Ok(())
}
