// A journal in its room, and receipts that grow.
use damon_journal::{Entry, Journal, Receipt, ReceiptList};
use std::test::Fail;

#[test]
fn entries_take_their_room(rt: HostRuntime) -> Result<(), Fail> {
    let mut journal = Journal::new(rt.alloc(), 2, 3, 1)?;
    assert_eq!(rt; (journal.spare(), journal.spare_bits()), (7, 6));
    journal.prepare(1, 0);
    assert_eq!(rt; (journal.len(), journal.spare()), (1, 6));
    assert!(rt; matches!(journal.entry(0), Entry::Prepare { pass: 1, at: 0 }));
    Ok(())
}

#[test]
fn receipts_grow(rt: HostRuntime) -> Result<(), Fail> {
    let mut receipts = ReceiptList::new(rt.alloc());
    assert_eq!(rt; receipts.spare(), 0);
    receipts.push(Receipt { page: 7, tag: 3 })?;
    receipts.reserve(2)?;
    receipts.put(Receipt {
        page: 0,
        tag: 1 << 40,
    });
    receipts.put(Receipt { page: 7, tag: 5 });
    assert_eq!(rt; receipts.len(), 3);
    let tags = (
        receipts.get(0).tag,
        receipts.get(1).tag,
        receipts.get(2).tag,
    );
    assert_eq!(rt; tags, (3, 1 << 40, 5));
    Ok(())
}
