use crate::scripts::refusal;
use it_types::{CycDecl, NoMemory, ObjId};
use s_script::{ReadBad, Why, conf_of, print_into, read};
use std::alloc::Global;
use std::test::*;

/// Handlers of each kind with each word, and the calls that begin and end what they stand on.
const SCRIPT: &[u8] =
    b"itron 1\nlink 1 0 0 0\nticks 10\nnode 0 10.0.0.1 0 0\ncyc 8 1000000 1000000 off\nend\ncbr 16\nudp_can_cep 1 all\nudp_del_cep 1\nend\ncyc 1 1 0 on\nsig_sem 1\nstp_cyc 1\nend\ntask 1 1 act\nsta_cyc 8\nstp_cyc 8\nudp_cre_cep 1 2000 16\nudp_rcv_dat 1 10 nblk\nudp_can_cep 1 rcv_dat\nudp_del_cep 1\next_tsk\nend\ncbr 1\nend\nnode 1 10.0.0.2 0 0\ncbr 1\nend\ncyc 1 3 0 off\nget_tid\nend\n";

#[test]
fn prints_the_handlers_that_it_read(rt: HostRuntime) -> Result<(), Fail> {
    let script = read(rt.alloc(), SCRIPT)?;
    let mut out = Vec::new(rt.alloc());
    print_into(rt.alloc(), &script, &mut out)?;
    assert_eq!(rt; out.as_slice(), SCRIPT);
    Ok(())
}

fn cyclic(id: u32, period: u32, phase: u32, on: bool) -> CycDecl {
    CycDecl {
        id,
        period,
        phase,
        on,
    }
}

#[test]
fn gives_both_nodes_their_handlers(rt: HostRuntime) -> Result<(), Fail> {
    let script = read(rt.alloc(), SCRIPT)?;
    let conf = conf_of(rt.alloc(), &script)?;
    let first = &conf.nodes[0];
    let second = &conf.nodes[1];
    let cyclics = [cyclic(8, 1000000, 1000000, false), cyclic(1, 1, 0, true)];
    assert_eq!(rt; first.cycs.as_slice(), cyclics.as_slice());
    assert_eq!(rt; first.cbrs.as_slice(), [ObjId(16), ObjId(1)].as_slice());
    assert_eq!(rt; second.cycs.as_slice(), [cyclic(1, 3, 0, false)].as_slice());
    assert_eq!(rt; second.cbrs.as_slice(), [ObjId(1)].as_slice());
    Ok(())
}

#[test]
fn names_the_cause_of_a_wrong_line_of_a_handler(rt: HostRuntime) -> Result<(), Fail> {
    let table = [
        ("cyc 1 3 0", 5, Why::Form),
        ("cyc 1 3 on", 5, Why::Form),
        ("cyc 1 3 0 act", 5, Why::Form),
        ("cyc 1 3 0 on ", 5, Why::Form),
        ("cyc 1 03 0 on", 5, Why::Form),
        ("cyc 0 1 0 on", 5, Why::Range),
        ("cyc 9 1 0 on", 5, Why::Range),
        ("cyc 1 0 0 on", 5, Why::Range),
        ("cyc 1 1000001 0 on", 5, Why::Range),
        ("cyc 1 1 1000001 on", 5, Why::Range),
        ("cyc 1 1 18446744073709551616 on", 5, Why::Range),
        ("cbr", 5, Why::Form),
        ("cbr 1 on", 5, Why::Form),
        ("cbr 0", 5, Why::Range),
        ("cbr 17", 5, Why::Range),
        ("cyc 1 1 0 on\next_tsk", 6, Why::Form),
        ("cbr 1\next_tsk", 6, Why::Form),
        ("cbr 1\nsig_sem 4294967296", 6, Why::Range),
        ("task 1 1 act\ncyc 1 3 0 on", 6, Why::Form),
        ("cyc 1 3 0 on\ncbr 1", 6, Why::Form),
        ("cbr 1\nnode 1 0.0.0.2 0 0", 6, Why::Form),
        ("cyc 1 1 0 on\nend\ncyc 1 2 0 off", 7, Why::Twice),
        ("cbr 1\nend\ncbr 1", 7, Why::Twice),
        (
            "cbr 1\nend\ncyc 1 1 0 on\nend\ntask 1 1 act",
            10,
            Why::Missing,
        ),
    ];
    for (lines, number, why) in table {
        let text = format!(in rt.alloc();
            "itron 1\nlink 1 0 0 0\nticks 0\nnode 0 0.0.0.1 0 0\n{lines}\n"
        )?;
        assert_eq!(rt;
            refusal(rt.alloc(), text.as_bytes()),
            Some(ReadBad::Refused(number, why))
        );
    }
    Ok(())
}

/// What is wrong with a callback routine of so many lines, if anything.
fn refused_body(alloc: Global, lines: usize) -> Result<Option<ReadBad>, NoMemory> {
    let mut text = Vec::from_slice(
        alloc,
        b"itron 1\nlink 1 0 0 0\nticks 0\nnode 0 0.0.0.1 0 0\nnode 1 0.0.0.2 0 0\ncbr 1\n",
    )?;
    for _ in 0..lines {
        text.extend_from_slice(b"get_tid\n")?;
    }
    text.extend_from_slice(b"end\n")?;
    Ok(refusal(alloc, &text))
}

#[test]
fn takes_1000_lines_of_a_handler_and_no_more(rt: HostRuntime) -> Result<(), Fail> {
    assert_eq!(rt; refused_body(rt.alloc(), 1000)?, None);
    assert_eq!(rt;
        refused_body(rt.alloc(), 1001)?,
        Some(ReadBad::Refused(1007, Why::Range))
    );
    Ok(())
}
