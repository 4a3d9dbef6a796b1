use it_types::{FnCode, NoMemory, PutErr, Req, Table, read_call, spell_into};
use std::alloc::Global;
use std::test::*;

#[test]
fn a_table_has_a_place_for_each_id(rt: HostRuntime) -> Result<(), Fail> {
    let mut table: Table<u32, 2> = Table::new(rt.alloc())?;
    assert!(rt; matches!(table.put(0, 5), Err(PutErr::BadId(5))));
    assert!(rt; table.put(1, 5).is_ok());
    assert!(rt; matches!(table.put(1, 6), Err(PutErr::Taken(6))));
    assert!(rt; matches!(table.put(3, 5), Err(PutErr::BadId(5))));
    assert!(rt; table.put(2, 7).is_ok());
    if let Some(value) = table.get_mut(1) {
        *value += 1;
    }
    assert!(rt; matches!(table.get(1), Some(6)));
    assert!(rt; table.get(0).is_none() && table.get(3).is_none() && table.get_mut(3).is_none());
    assert_eq!(rt; table.take(1), Some(6));
    assert_eq!(rt; table.take(1), None);
    assert!(rt; table.get(1).is_none() && table.put(1, 8).is_ok());
    Ok(())
}

/// Whether a line spells a request whose spelling it is.
fn is_spelled_again(alloc: Global, line: &[u8]) -> Result<bool, NoMemory> {
    match read_call(alloc, line)? {
        Some(request) => {
            let mut out = Vec::new(alloc);
            spell_into(alloc, &request, &mut out)?;
            Ok(out.as_slice() == line)
        }
        None => Ok(false),
    }
}

#[test]
fn each_call_is_spelled_as_it_is_read(rt: HostRuntime) -> Result<(), Fail> {
    let lines = [
        "act_tsk 1",
        "can_act 0",
        "ext_tsk",
        "ter_tsk 16",
        "chg_pri 2 4",
        "get_pri 2",
        "tslp_tsk 1000000",
        "wup_tsk 3",
        "can_wup 3",
        "rel_wai 3",
        "sus_tsk 4",
        "rsm_tsk 4",
        "frsm_tsk 4",
        "dly_tsk 0",
        "rot_rdq 16",
        "get_tid",
        "sig_sem 1",
        "twai_sem 1 nblk",
        "set_flg 1 4294967295",
        "clr_flg 1 0",
        "twai_flg 1 3 and fevr",
        "tsnd_dtq 1 7 pol",
        "fsnd_dtq 1 9",
        "trcv_dtq 1 5",
        "set_tim 9223372036854775807",
        "get_tim",
        "sta_cyc 1",
        "stp_cyc 8",
        "tcp_cre_rep 1 7",
        "tcp_del_rep 1",
        "tcp_cre_cep 1 1024 4096 0",
        "tcp_del_cep 1",
        "tcp_acp_cep 1 1 60000",
        "tcp_con_cep 1 49152 10.0.0.2:7 fevr",
        "tcp_sht_cep 1",
        "tcp_cls_cep 1 fevr",
        "tcp_snd_dat 1 x68656c6c6f fevr",
        "tcp_rcv_dat 1 100 pol",
        "tcp_get_buf 1 pol",
        "tcp_snd_buf 1 x",
        "tcp_rcv_buf 1 nblk",
        "tcp_rel_buf 1 0",
        "tcp_can_cep 1 rcv_buf",
        "udp_cre_cep 1 1000 0",
        "udp_del_cep 1",
        "udp_snd_dat 1 255.255.255.255:65535 x6869 nblk",
        "udp_rcv_dat 1 1 fevr",
        "udp_can_cep 1 rcv_dat",
    ];
    for line in lines {
        assert!(rt; is_spelled_again(rt.alloc(), line.as_bytes())?);
    }
    Ok(())
}

#[test]
fn no_other_line_is_a_call(rt: HostRuntime) -> Result<(), Fail> {
    let lines = [
        "",
        "sig_sem",
        "sig_sem 4294967296",
        "sig_sem 01",
        "sig_sem 1 ",
        " sig_sem 1",
        "sig_semaphore 1",
        "wai_sem 1",
        "ext_tsk 1",
        "twai_sem 1 0",
        "twai_sem 1 1000001",
        "dly_tsk 1000001",
        "set_tim 9223372036854775808",
        "twai_flg 1 3 all fevr",
        "tcp_cre_rep 1 65536",
        "tcp_con_cep 1 0 10.0.0.256:7 fevr",
        "tcp_snd_dat 1 xA5 fevr",
        "tcp_snd_dat 1 x123 fevr",
        "tcp_snd_dat 1 buf fevr",
        "udp_snd_dat 1 peer x00 fevr",
        "tcp_can_cep 1 event",
        "udp_can_cep 1 acp_cep",
        "udp_can_cep 1 event",
    ];
    for line in lines {
        assert!(rt; read_call(rt.alloc(), line.as_bytes())?.is_none());
    }
    Ok(())
}

/// How many bytes a call sends that is written with so many; none where the line is no call.
fn sent(alloc: Global, len: usize) -> Result<Option<usize>, NoMemory> {
    let mut line = Vec::from_slice(alloc, b"tcp_snd_buf 7 x")?;
    for _ in 0..len {
        line.extend_from_slice(b"a5")?;
    }
    match read_call(alloc, &line)? {
        Some(request) => Ok(Some(request.load().len())),
        None => Ok(None),
    }
}

#[test]
fn a_call_of_a_trace_has_65280_bytes_and_no_more(rt: HostRuntime) -> Result<(), Fail> {
    assert_eq!(rt; sent(rt.alloc(), 65280)?, Some(65280));
    assert_eq!(rt; sent(rt.alloc(), 65281)?, None);
    Ok(())
}

/// The function of a line that cancels.
fn canceled(alloc: Global, line: &[u8]) -> Result<Option<FnCode>, NoMemory> {
    match read_call(alloc, line)? {
        Some(Req::TcpCanCep { func, .. } | Req::UdpCanCep { func, .. }) => Ok(Some(func)),
        _ => Ok(None),
    }
}

#[test]
fn a_word_of_a_function_is_of_its_protocol(rt: HostRuntime) -> Result<(), Fail> {
    let table: [(&[u8], FnCode); 4] = [
        (b"tcp_can_cep 1 snd_dat", FnCode::SndDat),
        (b"udp_can_cep 1 snd_dat", FnCode::UdpSnd),
        (b"tcp_can_cep 1 all", FnCode::All),
        (b"udp_can_cep 1 all", FnCode::All),
    ];
    for (line, function) in table {
        assert_eq!(rt; canceled(rt.alloc(), line)?, Some(function));
    }
    Ok(())
}
