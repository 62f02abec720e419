use crate::{Far, Found, Op, Reach, blend, eval, far_of, find, info, reach};

#[test]
fn results_at_the_edges(rt: HostRuntime) {
    let rows = [
        (Op::Addssw, 0x7fff, 1, 0x7fff, 0),
        (Op::Subusw, 0, 1, 0, 0),
        (Op::Absb, 0x80, 0, 0x80, 0),
        (Op::Avgub, 0xff, 0xfe, 0xff, 0),
        (Op::Div255w, 65025, 0, 255, 0),
        (Op::Divluw, 5, 256, 255, 0),
        (Op::Shrsw, 0x8000, 40, 0xffff, 0),
        (Op::Convusslw, 0xffff_ffff, 0, 0x7fff, 0),
        (Op::Mulhsb, 0x80, 0x80, 0x40, 0),
        (Op::Swapl, 0x0102_0304, 0, 0x0403_0201, 0),
        (Op::Splitwb, 0x1234, 0, 0x12, 0x34),
        (Op::Mergebw, 0x34, 0x12, 0x1234, 0),
        (Op::Cmpeqw, 5, 5, 0xffff, 0),
        (Op::Accsadubl, 0x103, 0x205, 2, 0),
    ];
    for (op, a, b, first, second) in rows {
        assert!(rt; far_of(op).is_none());
        assert_eq!(rt; eval(op, a, b), (first, second), "{op:?} of {a} and {b}");
    }
}

const NAMES: &str =
    "absb absw absl addb addw addl addq addssb addssw addssl addusb addusw addusl andb andw andl andq orb \
    orw orl orq xorb xorw xorl xorq andnb andnw andnl andnq avgsb avgsw avgsl avgub avguw avgul cmpeqb \
    cmpeqw cmpeql cmpeqq cmpgtsb cmpgtsw cmpgtsl cmpgtsq copyb copyw copyl copyq loadb loadw loadl loadq \
    loadpb loadpw loadpl loadpq storeb storew storel storeq maxsb maxsw maxsl minsb minsw minsl maxub \
    maxuw maxul minub minuw minul mullb mullw mulll mulhsb mulhsw mulhsl mulhub mulhuw mulhul shlb shlw \
    shll shlq shrsb shrsw shrsl shrsq shrub shruw shrul shruq signb signw signl subb subw subl subq \
    subssb subssw subssl subusb subusw subusl convsbw convswl convslq convubw convuwl convulq splatbw \
    splatbl splatw3q convwb convlw convql convhwb convhlw convhql select0wb select0lw select0ql \
    select1wb select1lw select1ql convssswb convssslw convsssql convsuswb convsuslw convsusql convusswb \
    convusslw convussql convuuswb convuuslw convuusql mulsbw mulswl mulslq mulubw muluwl mululq mergebw \
    mergewl mergelq splitwb splitlw splitql swapw swapl swapq swapwl swaplq div255w divluw accw accl \
    accsadubl loadoffb loadoffw loadoffl loadupdb loadupib ldresnearb ldresnearl ldreslinb ldreslinl";

#[test]
fn names_of_each_kind(rt: HostRuntime) {
    for name in NAMES.split(' ') {
        let Found::Yes(op) = find(name.as_bytes()) else {
            panic!(rt; "{name} is not found");
        };
        assert_eq!(rt; info(op).name, name);
    }
    assert_eq!(rt; NAMES.split(' ').count(), 169);
    assert_eq!(rt; find(b"convfd"), Found::Unsupported);
    assert_eq!(rt; find(b"Addb"), Found::Unknown);
}

#[test]
fn elements_and_shares(rt: HostRuntime) {
    let rows: [(Far, u16, u64, u64, i64, Option<i64>, u8); 9] = [
        (Far::Loadoffb, 0, 0xffff_ffff, 0, -1, None, 0),
        (Far::Loadupdb, 3, 0, 0, 1, None, 0),
        (Far::Loadupib, 2, 0, 0, 1, None, 0),
        (Far::Loadupib, 3, 0, 0, 1, Some(2), 0),
        (Far::Ldresnearb, 2, 0x2_0000, 0xffff_0000, 0, None, 0),
        (Far::Ldresnearl, 1, 0, 0xffff_ffff, -1, None, 0),
        (Far::Ldreslinb, 3, 0, 0x8000, 1, Some(2), 128),
        (Far::Ldreslinb, 1, 0, 0x1_0000, 1, Some(2), 0),
        (Far::Ldreslinl, 3, 0xffff_ffff, 0xffff, 2, Some(3), 255),
    ];
    for (far, i, p, q, first, second, part) in rows {
        let wanted = Reach {
            first,
            second,
            part,
        };
        assert_eq!(rt; reach(far, u32::from(i), p, q), wanted, "{far:?} of {i}");
    }
    let farthest = reach(Far::Ldreslinl, 0x7fff_ffff, 0x8000_0000, 0x8000_0000);
    assert_eq!(rt; farthest.first, -0x4000_0000_0000);
}

#[test]
fn values_of_elements(rt: HostRuntime) {
    assert_eq!(rt; blend(Far::Ldreslinb, 0x64, 0xc8, 128), 0x96);
    assert_eq!(rt;
        blend(Far::Ldreslinl, 0x00ff_0080, 0xff00_0140, 255),
        0xfe00_0040
    );
    assert_eq!(rt; blend(Far::Loadupib, 0x10, 0x20, 0), 0x18);
    assert_eq!(rt; blend(Far::Loadoffw, 0x1234, 0, 0), 0x1234);
}
