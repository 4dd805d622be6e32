// What the walk reads and refuses over the signature of a small port.
use calls::samples::small_port;
use draft::depth::Depth;
use draft::nodes::DraftNode;
use draft::walk::read_draft;
use fault::kinds::TreeFault;
use std::test::Fail;

// The fault of a code at depth 2.
fn fault(code: &[u8]) -> Result<Option<TreeFault>, TreeFault> {
    Ok(read_draft(&small_port(), Depth::new(2)?, code).err())
}

#[test]
fn nodes_in_order(rt: HostRuntime) -> Result<(), Fail> {
    let nodes = read_draft(&small_port(), Depth::new(2)?, &[0, 2])?;
    assert_eq!(rt; nodes.len(), 2);
    assert_eq!(rt;
        nodes.node(0),
        Some(DraftNode {
            function: Some(0),
            category: 0,
            left: 2,
        })
    );
    assert_eq!(rt;
        nodes.node(1),
        Some(DraftNode {
            function: Some(2),
            category: 1,
            left: 1,
        })
    );
    assert_eq!(rt; nodes.node(2), None);
    Ok(())
}

#[test]
fn first_fault(rt: HostRuntime) -> Result<(), Fail> {
    assert_eq!(rt; fault(&[])?, Some(TreeFault::EndsEarly { length: 0 }));
    assert_eq!(rt; fault(&[0])?, Some(TreeFault::EndsEarly { length: 1 }));
    assert_eq!(rt; fault(&[1])?, Some(TreeFault::WrongNode { byte: 0 }));
    assert_eq!(rt; fault(&[3, 3, 255])?, Some(TreeFault::TooDeep { byte: 2 }));
    assert_eq!(rt; fault(&[0, 1, 1])?, Some(TreeFault::LeftOver { byte: 2 }));
    Ok(())
}

#[test]
fn depths(rt: HostRuntime) -> Result<(), Fail> {
    assert_eq!(rt; Depth::new(0).err(), Some(TreeFault::DepthOutOfRange));
    assert_eq!(rt; Depth::new(6)?.get(), 6);
    assert_eq!(rt; Depth::new(7).err(), Some(TreeFault::DepthOutOfRange));
    Ok(())
}
