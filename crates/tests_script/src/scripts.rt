use it_types::{DtqDecl, FlgDecl, NoMemory, SemDecl, TaskDecl};
use s_script::{ReadBad, Why, conf_of, print_into, read};
use std::alloc::Global;
use std::test::*;

const SCRIPT: &[u8] =
    b"itron 1\nlink 1 0 0 0\nticks 10\nnode 0 10.0.0.1 0 0\nsem 1 fifo 0 1\ntask 1 1 act\ntwai_sem 1 fevr\ntwai_sem 2 pol\ntwai_sem 0 1\ntwai_sem 4294967295 1000000\nend\ntask 2 2 act\ndly_tsk 0\nsig_sem 1\ndly_tsk 1000000\nend\nnode 1 10.0.0.2 5 6\ntask 1 3 act\nudp_cre_cep 4294967295 65535 0\nudp_snd_dat 1 0.0.0.0:0 x nblk\nudp_snd_dat 2 192.168.0.255:7 x68690aff 9\nudp_rcv_dat 3 1500 pol\nend\nsem 1 fifo 2 3\n";

#[test]
fn prints_what_it_read(rt: HostRuntime) -> Result<(), Fail> {
    let script = read(rt.alloc(), SCRIPT)?;
    let mut out = Vec::new(rt.alloc());
    print_into(rt.alloc(), &script, &mut out)?;
    assert_eq!(rt; out.as_slice(), SCRIPT);
    Ok(())
}

fn task(id: u32, pri: u32) -> TaskDecl {
    TaskDecl { id, pri, act: true }
}

fn sem(init: u32, max: u32) -> SemDecl {
    SemDecl {
        id: 1,
        pri: false,
        init,
        max,
    }
}

#[test]
fn gives_both_nodes_their_declarations(rt: HostRuntime) -> Result<(), Fail> {
    let script = read(rt.alloc(), SCRIPT)?;
    let conf = conf_of(rt.alloc(), &script)?;
    let first = &conf.nodes[0];
    let second = &conf.nodes[1];
    assert_eq!(rt; first.addr, 0x0a000001);
    assert_eq!(rt; first.tasks.as_slice(), [task(1, 1), task(2, 2)].as_slice());
    assert_eq!(rt; first.sems.as_slice(), [sem(0, 1)].as_slice());
    assert_eq!(rt; (second.addr, second.isn0, second.top0), (0x0a000002, 5, 6));
    assert_eq!(rt; second.tasks.as_slice(), [task(1, 3)].as_slice());
    assert_eq!(rt; second.sems.as_slice(), [sem(2, 3)].as_slice());
    Ok(())
}

/// Each kind of declaration with each word, and each kernel call that a script may write.
const KERNEL_SCRIPT: &[u8] =
    b"itron 1\nlink 1 0 0 0\nticks 10\nnode 0 10.0.0.1 0 0\nflg 1 fifo one clr 4294967295\ndtq 16 pri 1024\ntask 1 1 dor\nact_tsk 1\ncan_act 0\nter_tsk 2\nchg_pri 2 0\nget_pri 0\ntslp_tsk nblk\nwup_tsk 2\ncan_wup 2\nrel_wai 2\nsus_tsk 2\nrsm_tsk 2\nfrsm_tsk 4294967295\ndly_tsk 0\nrot_rdq 16\nget_tid\nsig_sem 1\ntwai_sem 1 nblk\nset_flg 1 1\nclr_flg 1 0\ntwai_flg 1 3 and fevr\ntwai_flg 1 3 or 1000000\ntsnd_dtq 1 4294967295 pol\nfsnd_dtq 1 9\ntrcv_dtq 1 5\nset_tim 9223372036854775807\nget_tim\next_tsk\nget_tid\nend\nflg 16 pri many keep 0\nsem 1 pri 0 65535\ndtq 1 fifo 0\nnode 1 10.0.0.2 0 0\nflg 1 fifo many keep 0\ndtq 1 fifo 0\ntask 1 16 act\nend\n";

#[test]
fn prints_each_kernel_line(rt: HostRuntime) -> Result<(), Fail> {
    let script = read(rt.alloc(), KERNEL_SCRIPT)?;
    let mut out = Vec::new(rt.alloc());
    print_into(rt.alloc(), &script, &mut out)?;
    assert_eq!(rt; out.as_slice(), KERNEL_SCRIPT);
    Ok(())
}

fn flag(id: u32, pri: bool, many: bool, clr: bool, init: u32) -> FlgDecl {
    FlgDecl {
        id,
        pri,
        many,
        clr,
        init,
    }
}

fn queue(id: u32, pri: bool, cap: u32) -> DtqDecl {
    DtqDecl { id, pri, cap }
}

#[test]
fn gives_a_node_all_its_objects(rt: HostRuntime) -> Result<(), Fail> {
    let script = read(rt.alloc(), KERNEL_SCRIPT)?;
    let conf = conf_of(rt.alloc(), &script)?;
    let node = &conf.nodes[0];
    let flags = [
        flag(1, false, false, true, 4294967295),
        flag(16, true, true, false, 0),
    ];
    let dormant = TaskDecl {
        id: 1,
        pri: 1,
        act: false,
    };
    let by_priority = SemDecl {
        id: 1,
        pri: true,
        init: 0,
        max: 65535,
    };
    assert_eq!(rt; node.tasks.as_slice(), [dormant].as_slice());
    assert_eq!(rt; node.sems.as_slice(), [by_priority].as_slice());
    assert_eq!(rt; node.flags.as_slice(), flags.as_slice());
    assert_eq!(rt;
        node.dtqs.as_slice(),
        [queue(16, true, 1024), queue(1, false, 0)].as_slice()
    );
    Ok(())
}

pub(crate) fn refusal(alloc: Global, text: &[u8]) -> Option<ReadBad> {
    read(alloc, text).err()
}

#[test]
fn names_the_first_wrong_line(rt: HostRuntime) {
    let table: [(&[u8], usize, Why); 8] = [
        (b"", 1, Why::Missing),
        (b"itron 1\nlink 1 0 0 0\nticks 500000\n", 3, Why::Range),
        (b"itron 1\n# the link\n\nlink 1 9 8 0\n", 4, Why::Range),
        (
            b"itron 1\nlink 1 0 0 0\nticks 0\nnode 0 0.0.0.1 0 0\nsem 1 fifo 0 1\nsem 1 fifo 0 1\n",
            6,
            Why::Twice,
        ),
        (b"itron 1\nlink 1 0 0 0", 2, Why::Missing),
        (
            b"itron 1\nlink 1 0 0 0\nticks 0\nnode 0 0.0.0.1 0 0\nnode 1 0.0.0.2 0 0\nnode 1 0.0.0.3 0 0\n",
            6,
            Why::Form,
        ),
        (
            b"itron 1\nlink 1 0 0 0\nticks 0\nnode 0 0.0.0.1 0 0\nnode 1 0.0.0.2 0 0\ntask 1 1 act\n",
            7,
            Why::Missing,
        ),
        (
            b"itron 1\nlink 1 0 0 0\nticks 0\nnode 0 0.0.0.1 0 0\nnode 1 0.0.0.2 0 0\ntask 1 1 act\nend\ntask 1 2 act\n",
            8,
            Why::Twice,
        ),
    ];
    for (text, line, why) in table {
        assert_eq!(rt;
            refusal(rt.alloc(), text),
            Some(ReadBad::Refused(line, why))
        );
    }
}

#[test]
fn names_the_cause_of_a_wrong_call(rt: HostRuntime) -> Result<(), Fail> {
    let table = [
        ("twai_sem 1 0", Why::Range),
        ("twai_sem 1 1000001", Why::Range),
        ("twai_sem 1 4294967301", Why::Range),
        ("twai_sem 1 18446744073709551617", Why::Range),
        ("twai_sem 4294967296 5", Why::Range),
        ("twai_sem 1 non", Why::Form),
        ("twai_sem 1 05", Why::Form),
        ("twai_sem 1 5 ", Why::Form),
        ("twai_sem 1 fevr5", Why::Form),
        ("twai_sem 1 ", Why::Form),
        ("dly_tsk 1000001", Why::Range),
        ("dly_tsk 4294967301", Why::Range),
        ("dly_tsk 18446744073709551617", Why::Range),
        ("dly_tsk", Why::Form),
        ("dly_tsk -1", Why::Form),
        ("dly_tsk 1 ", Why::Form),
        ("dly_tsk fevr", Why::Form),
        ("udp_cre_cep 1 65536 0", Why::Range),
        ("udp_cre_cep 4294967296 1 0", Why::Range),
        ("udp_cre_cep 1 1 4294967296", Why::Range),
        ("udp_cre_cep 1 07 0", Why::Form),
        ("udp_cre_cep 1 7", Why::Form),
        ("udp_rcv_dat 1 4294967296 pol", Why::Range),
        ("udp_rcv_dat 1 5 0", Why::Range),
        ("udp_rcv_dat 1 5 nblk ", Why::Form),
        ("udp_snd_dat 4294967296 10.0.0.2:7 x00 pol", Why::Range),
        ("udp_snd_dat 1 10.0.0.256:7 x00 pol", Why::Range),
        ("udp_snd_dat 1 10.0.0.2:65536 x00 pol", Why::Range),
        ("udp_snd_dat 1 10.0.0.2:7 x00 1000001", Why::Range),
        ("udp_snd_dat 1 10.0.2:7 x00 pol", Why::Form),
        ("udp_snd_dat 1 10.0.0.0.2:7 x00 pol", Why::Form),
        ("udp_snd_dat 1 10.0.0.2 7 x00 pol", Why::Form),
        ("udp_snd_dat 1 10.0.0.2:7 xFF pol", Why::Form),
        ("udp_snd_dat 1 10.0.0.2:7 xfF pol", Why::Form),
        ("udp_snd_dat 1 10.0.0.2:7 x000 pol", Why::Form),
        ("udp_snd_dat 1 10.0.0.2:7 x0g pol", Why::Form),
        ("udp_snd_dat 1 10.0.0.2:7 00 pol", Why::Form),
        ("udp_snd_dat 1 10.0.0.2:7 x00", Why::Form),
        ("ext_tsk 1", Why::Form),
        ("act_tsk", Why::Form),
        ("act_tsk 4294967296", Why::Range),
        ("chg_pri 1 4294967296", Why::Range),
        ("set_flg 1 4294967296", Why::Range),
        ("twai_flg 1 1 fevr", Why::Form),
        ("twai_flg 1 1 any fevr", Why::Form),
        ("twai_flg 1 1 or 0", Why::Range),
        ("fsnd_dtq 1 4294967296", Why::Range),
        ("set_tim 9223372036854775808", Why::Range),
        ("get_tim 1", Why::Form),
        ("sta_cyc", Why::Form),
        ("stp_cyc 4294967296", Why::Range),
        ("udp_del_cep 4294967296", Why::Range),
        ("udp_can_cep 1 rcv", Why::Form),
        ("tcp_del_rep", Why::Form),
        ("tcp_cre_rep 1 65536", Why::Range),
        ("tcp_snd_dat 1 peer buf fevr", Why::Form),
        ("tcp_con_cep 1 0 peer fevr", Why::Form),
        ("udp_snd_dat 1 buf peer fevr", Why::Form),
        ("udp_snd_dat 1 peer buf 0", Why::Range),
        ("fill 65281", Why::Range),
        ("fill", Why::Form),
        ("loop 0", Why::Range),
        ("loop 65536", Why::Range),
        ("loop", Why::Form),
        ("until", Why::Form),
        ("until full", Why::Form),
        ("pool 1", Why::Form),
        ("pool", Why::Nest),
        ("until end", Why::Nest),
        ("until fail", Why::Nest),
        ("until empty", Why::Nest),
    ];
    for (call, why) in table {
        let text = format!(in rt.alloc();
            "itron 1\nlink 1 0 0 0\nticks 0\nnode 0 0.0.0.1 0 0\ntask 1 1 act\n{call}\n"
        )?;
        assert_eq!(rt;
            refusal(rt.alloc(), text.as_bytes()),
            Some(ReadBad::Refused(6, why))
        );
    }
    Ok(())
}

#[test]
fn names_the_cause_of_a_wrong_declaration(rt: HostRuntime) -> Result<(), Fail> {
    let table = [
        ("sem 1 prio 0 1", Why::Form),
        ("flg 17 fifo one clr 0", Why::Range),
        ("flg 1 fifo one clr 4294967296", Why::Range),
        ("flg 1 one fifo clr 0", Why::Form),
        ("flg 1 fifo one 0", Why::Form),
        ("flg 1 fifo one clr", Why::Form),
        ("flg 2 pri many keep 1", Why::Twice),
        ("dtq 0 fifo 1", Why::Range),
        ("dtq 1 fifo 1025", Why::Range),
        ("dtq 1 pri", Why::Form),
        ("dtq 1 fifo 1 ", Why::Form),
        ("dtq 3 pri 2", Why::Twice),
        ("task 1 1 dormant", Why::Form),
        ("task 1 17 dor", Why::Range),
    ];
    for (declaration, why) in table {
        let text = format!(in rt.alloc();
            "itron 1\nlink 1 0 0 0\nticks 0\nnode 0 0.0.0.1 0 0\nflg 2 fifo one clr 0\ndtq 3 fifo 0\n{declaration}\n"
        )?;
        assert_eq!(rt;
            refusal(rt.alloc(), text.as_bytes()),
            Some(ReadBad::Refused(7, why))
        );
    }
    Ok(())
}

/// Each call of TCP, each line that is no call, and the buffer and the peer in the place of what a call sends.
const NETWORK_SCRIPT: &[u8] =
    b"itron 1\nlink 18446744073709551615 9 7 1000\nticks 400000\nnode 0 10.0.0.1 0 0\ntask 1 1 act\ntcp_cre_rep 1 80\ntcp_del_rep 1\ntcp_cre_cep 1 1000 4294967295 0\ntcp_acp_cep 1 1 fevr\ntcp_con_cep 1 0 10.0.0.2:80 nblk\ntcp_sht_cep 1\ntcp_cls_cep 1 pol\ntcp_snd_dat 1 x00ff 5\ntcp_snd_dat 1 buf fevr\ntcp_rcv_dat 1 4294967295 fevr\ntcp_get_buf 1 fevr\ntcp_snd_buf 1 x\ntcp_snd_buf 1 buf\ntcp_rcv_buf 1 fevr\ntcp_rel_buf 1 4\ntcp_can_cep 1 all\ntcp_del_cep 1\nend\ntask 2 2 act\nfill 0\nfill 65280\nloop 1\nloop 2\nloop 3\nloop 65535\nuntil end\nuntil fail\nuntil empty\nudp_snd_dat 1 peer buf fevr\nudp_snd_dat 1 peer x00 fevr\nudp_snd_dat 1 0.0.0.0:0 buf fevr\npool\npool\npool\npool\nend\nnode 1 10.0.0.2 0 0\n";

#[test]
fn prints_each_line_of_a_body(rt: HostRuntime) -> Result<(), Fail> {
    let script = read(rt.alloc(), NETWORK_SCRIPT)?;
    let mut out = Vec::new(rt.alloc());
    print_into(rt.alloc(), &script, &mut out)?;
    assert_eq!(rt; out.as_slice(), NETWORK_SCRIPT);
    Ok(())
}

#[test]
fn names_the_first_line_that_nests_wrongly(rt: HostRuntime) -> Result<(), Fail> {
    let table = [
        ("loop 2\nend", 7),
        ("loop 2\npool\npool", 8),
        ("loop 2\npool\nuntil end", 8),
        ("loop 1\nloop 1\nloop 1\nloop 1\nloop 1", 10),
        ("loop 1\nloop 1\npool\nend", 9),
    ];
    for (lines, number) in table {
        let text = format!(in rt.alloc();
            "itron 1\nlink 1 0 0 0\nticks 0\nnode 0 0.0.0.1 0 0\ntask 1 1 act\n{lines}\n"
        )?;
        assert_eq!(rt;
            refusal(rt.alloc(), text.as_bytes()),
            Some(ReadBad::Refused(number, Why::Nest))
        );
    }
    Ok(())
}

/// What is wrong with a call that sends so many bytes, if anything.
fn refused_data(alloc: Global, len: usize) -> Result<Option<ReadBad>, NoMemory> {
    let mut text = Vec::from_slice(
        alloc,
        b"itron 1\nlink 1 0 0 0\nticks 0\nnode 0 0.0.0.1 0 0\nnode 1 0.0.0.2 0 0\ntask 1 1 act\nudp_snd_dat 1 0.0.0.1:7 x",
    )?;
    for _ in 0..len {
        text.extend_from_slice(b"a5")?;
    }
    text.extend_from_slice(b" fevr\nend\n")?;
    Ok(refusal(alloc, &text))
}

#[test]
fn takes_1024_bytes_and_no_more(rt: HostRuntime) -> Result<(), Fail> {
    assert_eq!(rt; refused_data(rt.alloc(), 1024)?, None);
    assert_eq!(rt;
        refused_data(rt.alloc(), 1025)?,
        Some(ReadBad::Refused(7, Why::Form))
    );
    Ok(())
}
