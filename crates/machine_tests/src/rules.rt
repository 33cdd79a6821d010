use crate::making::text;
use expectations::{same, same_at};
use romaji_rules::{Kana, Out, OutRef, Pending, RuleFault, Rules};
use skk_text::{Text, TextFault};
use std::alloc::Global;
use std::process::Abort;

// Each input of the standard table, and each followed by `a`: what is typed, `=`, what comes out in
// hiragana, `:`, and what is pending then.
static CASES: &str = "
a=あ: aa=ああ: i=い: ia=いあ: u=う: ua=うあ: e=え: ea=えあ: o=お: oa=おあ:
ka=か: kaa=かあ: ki=き: kia=きあ: ku=く: kua=くあ: ke=け: kea=けあ: ko=こ: koa=こあ:
sa=さ: saa=さあ: si=し: sia=しあ: su=す: sua=すあ: se=せ: sea=せあ: so=そ: soa=そあ:
ta=た: taa=たあ: ti=ち: tia=ちあ: tu=つ: tua=つあ: te=て: tea=てあ: to=と: toa=とあ:
na=な: naa=なあ: ni=に: nia=にあ: nu=ぬ: nua=ぬあ: ne=ね: nea=ねあ: no=の: noa=のあ:
ha=は: haa=はあ: hi=ひ: hia=ひあ: hu=ふ: hua=ふあ: he=へ: hea=へあ: ho=ほ: hoa=ほあ:
ma=ま: maa=まあ: mi=み: mia=みあ: mu=む: mua=むあ: me=め: mea=めあ: mo=も: moa=もあ:
ya=や: yaa=やあ: yi=い: yia=いあ: yu=ゆ: yua=ゆあ: ye=いぇ: yea=いぇあ: yo=よ: yoa=よあ:
ra=ら: raa=らあ: ri=り: ria=りあ: ru=る: rua=るあ: re=れ: rea=れあ: ro=ろ: roa=ろあ:
wa=わ: waa=わあ: wi=うぃ: wia=うぃあ: wu=う: wua=うあ: we=うぇ: wea=うぇあ: wo=を: woa=をあ:
ga=が: gaa=があ: gi=ぎ: gia=ぎあ: gu=ぐ: gua=ぐあ: ge=げ: gea=げあ: go=ご: goa=ごあ:
za=ざ: zaa=ざあ: zi=じ: zia=じあ: zu=ず: zua=ずあ: ze=ぜ: zea=ぜあ: zo=ぞ: zoa=ぞあ:
da=だ: daa=だあ: di=ぢ: dia=ぢあ: du=づ: dua=づあ: de=で: dea=であ: do=ど: doa=どあ:
ba=ば: baa=ばあ: bi=び: bia=びあ: bu=ぶ: bua=ぶあ: be=べ: bea=べあ: bo=ぼ: boa=ぼあ:
pa=ぱ: paa=ぱあ: pi=ぴ: pia=ぴあ: pu=ぷ: pua=ぷあ: pe=ぺ: pea=ぺあ: po=ぽ: poa=ぽあ:
fa=ふぁ: faa=ふぁあ: fi=ふぃ: fia=ふぃあ: fu=ふ: fua=ふあ: fe=ふぇ: fea=ふぇあ: fo=ふぉ: foa=ふぉあ:
ja=じゃ: jaa=じゃあ: ji=じ: jia=じあ: ju=じゅ: jua=じゅあ: je=じぇ: jea=じぇあ: jo=じょ: joa=じょあ:
va=ゔぁ: vaa=ゔぁあ: vi=ゔぃ: via=ゔぃあ: vu=ゔ: vua=ゔあ: ve=ゔぇ: vea=ゔぇあ: vo=ゔぉ: voa=ゔぉあ:
sha=しゃ: shaa=しゃあ: shi=し: shia=しあ: shu=しゅ: shua=しゅあ: she=しぇ: shea=しぇあ: sho=しょ: shoa=しょあ:
cha=ちゃ: chaa=ちゃあ: chi=ち: chia=ちあ: chu=ちゅ: chua=ちゅあ: che=ちぇ: chea=ちぇあ: cho=ちょ: choa=ちょあ:
tsa=つぁ: tsaa=つぁあ: tsi=つぃ: tsia=つぃあ: tsu=つ: tsua=つあ: tse=つぇ: tsea=つぇあ: tso=つぉ: tsoa=つぉあ:
tha=てぁ: thaa=てぁあ: thi=てぃ: thia=てぃあ: thu=てゅ: thua=てゅあ: the=てぇ: thea=てぇあ: tho=てょ: thoa=てょあ:
dha=でゃ: dhaa=でゃあ: dhi=でぃ: dhia=でぃあ: dhu=でゅ: dhua=でゅあ: dhe=でぇ: dhea=でぇあ: dho=でょ: dhoa=でょあ:
fya=ふゃ: fyaa=ふゃあ: fyi=ふぃ: fyia=ふぃあ: fyu=ふゅ: fyua=ふゅあ: fye=ふぇ: fyea=ふぇあ: fyo=ふょ: fyoa=ふょあ:
xa=ぁ: xaa=ぁあ: xi=ぃ: xia=ぃあ: xu=ぅ: xua=ぅあ: xe=ぇ: xea=ぇあ: xo=ぉ: xoa=ぉあ:
kya=きゃ: kyaa=きゃあ: kyi=きぃ: kyia=きぃあ: kyu=きゅ: kyua=きゅあ: kye=きぇ: kyea=きぇあ: kyo=きょ: kyoa=きょあ:
sya=しゃ: syaa=しゃあ: syi=しぃ: syia=しぃあ: syu=しゅ: syua=しゅあ: sye=しぇ: syea=しぇあ: syo=しょ: syoa=しょあ:
tya=ちゃ: tyaa=ちゃあ: tyi=ちぃ: tyia=ちぃあ: tyu=ちゅ: tyua=ちゅあ: tye=ちぇ: tyea=ちぇあ: tyo=ちょ: tyoa=ちょあ:
cya=ちゃ: cyaa=ちゃあ: cyi=ちぃ: cyia=ちぃあ: cyu=ちゅ: cyua=ちゅあ: cye=ちぇ: cyea=ちぇあ: cyo=ちょ: cyoa=ちょあ:
nya=にゃ: nyaa=にゃあ: nyi=にぃ: nyia=にぃあ: nyu=にゅ: nyua=にゅあ: nye=にぇ: nyea=にぇあ: nyo=にょ: nyoa=にょあ:
hya=ひゃ: hyaa=ひゃあ: hyi=ひぃ: hyia=ひぃあ: hyu=ひゅ: hyua=ひゅあ: hye=ひぇ: hyea=ひぇあ: hyo=ひょ: hyoa=ひょあ:
mya=みゃ: myaa=みゃあ: myi=みぃ: myia=みぃあ: myu=みゅ: myua=みゅあ: mye=みぇ: myea=みぇあ: myo=みょ: myoa=みょあ:
rya=りゃ: ryaa=りゃあ: ryi=りぃ: ryia=りぃあ: ryu=りゅ: ryua=りゅあ: rye=りぇ: ryea=りぇあ: ryo=りょ: ryoa=りょあ:
gya=ぎゃ: gyaa=ぎゃあ: gyi=ぎぃ: gyia=ぎぃあ: gyu=ぎゅ: gyua=ぎゅあ: gye=ぎぇ: gyea=ぎぇあ: gyo=ぎょ: gyoa=ぎょあ:
zya=じゃ: zyaa=じゃあ: zyi=じぃ: zyia=じぃあ: zyu=じゅ: zyua=じゅあ: zye=じぇ: zyea=じぇあ: zyo=じょ: zyoa=じょあ:
jya=じゃ: jyaa=じゃあ: jyi=じぃ: jyia=じぃあ: jyu=じゅ: jyua=じゅあ: jye=じぇ: jyea=じぇあ: jyo=じょ: jyoa=じょあ:
dya=ぢゃ: dyaa=ぢゃあ: dyi=ぢぃ: dyia=ぢぃあ: dyu=ぢゅ: dyua=ぢゅあ: dye=ぢぇ: dyea=ぢぇあ: dyo=ぢょ: dyoa=ぢょあ:
bya=びゃ: byaa=びゃあ: byi=びぃ: byia=びぃあ: byu=びゅ: byua=びゅあ: bye=びぇ: byea=びぇあ: byo=びょ: byoa=びょあ:
pya=ぴゃ: pyaa=ぴゃあ: pyi=ぴぃ: pyia=ぴぃあ: pyu=ぴゅ: pyua=ぴゅあ: pye=ぴぇ: pyea=ぴぇあ: pyo=ぴょ: pyoa=ぴょあ:
n=:n na=な: nn=ん: nna=んあ: n'=ん: n'a=んあ: xya=ゃ: xyaa=ゃあ: xyu=ゅ: xyua=ゅあ:
xyo=ょ: xyoa=ょあ: xtu=っ: xtua=っあ: xtsu=っ: xtsua=っあ: xwa=ゎ: xwaa=ゎあ: xwi=ゐ: xwia=ゐあ:
xwe=ゑ: xwea=ゑあ: xka=ゕ: xkaa=ゕあ: xke=ゖ: xkea=ゖあ: -=ー: -a=ーあ: ,=、: ,a=、あ:
.=。: .a=。あ: [=「: [a=「あ: ]=」: ]a=」あ: z/=・: z/a=・あ: z.=…: z.a=…あ:
zh=←: zha=←あ: zj=↓: zja=↓あ: zk=↑: zka=↑あ: zl=→: zla=→あ: z[=『: z[a=『あ:
z]=』: z]a=』あ: bb=っ:b bba=っば: cc=っ:c cca=っあ: dd=っ:d dda=っだ: ff=っ:f ffa=っふぁ:
gg=っ:g gga=っが: hh=っ:h hha=っは: jj=っ:j jja=っじゃ: kk=っ:k kka=っか: pp=っ:p ppa=っぱ:
rr=っ:r rra=っら: ss=っ:s ssa=っさ: tt=っ:t tta=った: vv=っ:v vva=っゔぁ: ww=っ:w wwa=っわ:
xx=っ:x xxa=っぁ: yy=っ:y yya=っや: zz=っ:z zza=っざ:
";

// What comes out of the letters that are typed, in hiragana, `:`, and what is pending behind them.
fn output_of(rt: &impl Abort, alloc: Global, rules: &Rules, letters: &str) -> String {
    let mut pending = Pending::new();
    let mut hira = String::new(alloc);
    for c in letters.bytes() {
        let out = text_of(rt, alloc, rules.feed(&mut pending, c), Kana::Hiragana);
        hira.push_str(out.as_str()).expect(rt, "memory");
    }
    [hira.as_str(), pending.as_str()]
        .join(alloc, ":")
        .expect(rt, "memory")
}

// The text of an output.
fn text_of(rt: &impl Abort, alloc: Global, out: OutRef<'_>, kana: Kana) -> Text {
    out.text(alloc, kana).expect(rt, "memory")
}

#[test]
fn reads_the_standard_table(rt: HostRuntime) {
    let alloc = rt.alloc();
    let rules = Rules::standard(alloc).expect(&rt, "memory");
    same(CASES.split_whitespace().count(), 476).expect(&rt, "as wanted");
    for case in CASES.split_whitespace() {
        expect_case(&rt, alloc, &rules, case);
    }
}

fn expect_case<R: Abort>(rt: &R, alloc: Global, rules: &Rules, case: &str) {
    let (letters, wanted) = case.split_once('=').expect(rt, "no `=`");
    let output = output_of(rt, alloc, rules, letters);
    same_at(output.as_str(), wanted, letters).expect(rt, "as wanted");
}

#[test]
fn letters_go_on_or_begin_anew(rt: HostRuntime) {
    let rules = Rules::standard(rt.alloc()).expect(&rt, "memory");
    let mut pending = Pending::of(b"n");
    assert!(rt; rules.extend(&mut pending, b'y').is_some());
    same(pending.as_str(), "ny").expect(&rt, "as wanted");
    expect_anew(&rt, rt.alloc(), &rules, &mut pending);
    assert!(rt; pending.is_empty());
}

// A `q` does not go on with what is pending, and comes out by itself.
fn expect_anew<R: Abort>(rt: &R, alloc: Global, rules: &Rules, pending: &mut Pending) {
    assert!(rt; !rules.goes_on(pending, b'q'));
    let out = text_of(rt, alloc, rules.feed_anew(pending, b'q'), Kana::Hiragana);
    same(out.as_str(), "q").expect(rt, "as wanted");
}

#[test]
fn what_is_pending_comes_out(rt: HostRuntime) {
    let rules = Rules::standard(rt.alloc()).expect(&rt, "memory");
    for (kana, wanted) in [(Kana::Hiragana, "ん"), (Kana::Katakana, "ン")] {
        expect_flushed(&rt, rt.alloc(), &rules, kana, wanted);
    }
}

// Tells what comes out of `ny` whose last letter is deleted.
fn expect_flushed<R: Abort>(rt: &R, alloc: Global, rules: &Rules, kana: Kana, wanted: &str) {
    let mut pending = Pending::of(b"ny");
    pending.delete_last();
    let out = text_of(rt, alloc, rules.flush(&mut pending), kana);
    same(out.as_str(), wanted).expect(rt, "as wanted");
}

#[test]
fn outputs_are_in_both_kana(rt: HostRuntime) {
    let out = Out::of_hiragana(rt.alloc(), text(&rt, rt.alloc(), "な")).expect(&rt, "memory");
    same(out.in_kana(Kana::Hiragana).as_str(), "な").expect(&rt, "as wanted");
    same(out.in_kana(Kana::Katakana).as_str(), "ナ").expect(&rt, "as wanted");
    let nothing = Out::nothing(rt.alloc());
    assert!(rt; nothing.in_kana(Kana::Katakana).is_empty());
}

// A file, and its fault, if it has one.
static RULE_FILES: &[(&str, Option<RuleFault>)] = &[
    ("", None),
    ("ka\t\tか\tカ\n", None),
    (
        "ka\t\tか\tカ\nka\t\tか\tカ\n",
        Some(RuleFault::Twice { line: 2 }),
    ),
    ("kk\tk\tっ\tッ\n", None),
    ("a\tb\tあ\tア\n", Some(RuleFault::BadNext { line: 1 })),
    // a comment, an empty line, and CR before LF
    ("# か\r\n\r\nka\t\tか\tカ\r\nki\t\tき\tキ", None),
    // a last line keeps its CR, and a mark at the beginning stays
    ("ka\t\tか\tカ\r", Some(RuleFault::BadLine { line: 1 })),
    ("\u{FEFF}ka\t\tか\tカ\n", Some(RuleFault::BadLine { line: 1 })),
    // inputs of 8 and 9 bytes, and one with an upper-case letter
    ("abcdefgh\t\tあ\tア\n", None),
    ("abcdefghi\t\tあ\tア\n", Some(RuleFault::BadLine { line: 1 })),
    ("kA\t\tか\tカ\n", Some(RuleFault::BadLine { line: 1 })),
    // next texts of 8 and 9 bytes
    ("a\tabcdefgh\tあ\tア\n", Some(RuleFault::BadNext { line: 1 })),
    ("a\tabcdefghi\tあ\tア\n", Some(RuleFault::BadLine { line: 1 })),
    // outputs of 24 and 25 bytes, an empty one, and one with a space
    ("a\t\tああああああああ\tア\n", None),
    ("a\t\tああああああああa\tア\n", Some(RuleFault::BadLine { line: 1 })),
    ("a\t\t\t\n", None),
    ("a\t\tあ \tア\n", Some(RuleFault::BadLine { line: 1 })),
    // three fields, and five
    ("a\t\tあ\n", Some(RuleFault::BadLine { line: 1 })),
    ("a\t\tあ\tア\t\n", Some(RuleFault::BadLine { line: 1 })),
    // the input of a rule with a next text begins another
    (
        "k\tk\tっ\tッ\nka\t\tか\tカ\n",
        Some(RuleFault::BadNext { line: 1 }),
    ),
    // of two faults the first line is told, and a fault of a line by itself before one among all
    (
        "a\tb\tあ\tア\na\t\tあ\tア\nA\n",
        Some(RuleFault::Twice { line: 2 }),
    ),
    (
        "a\t\tあ\tア\nA\na\t\tあ\tア\n",
        Some(RuleFault::BadLine { line: 2 }),
    ),
];

#[test]
fn rule_files_are_read_or_refused(rt: HostRuntime) {
    for (file, fault) in RULE_FILES {
        expect_fault(&rt, rt.alloc(), file.as_bytes(), *fault, file);
    }
}

// Tells the fault of a file, if it has one.
fn expect_fault<R: Abort>(
    rt: &R,
    alloc: Global,
    file: &[u8],
    fault: Option<RuleFault>,
    case: &str,
) {
    same_at(Rules::read(alloc, file).err(), fault, case).expect(rt, "as wanted");
}

// A file of so many rules, of which the 4,097th has the input of the first.
fn many_rules(rt: &impl Abort, alloc: Global, count: usize) -> Text {
    let mut file = Text::new(alloc);
    for n in 0..count {
        for digit in [n / 256, n / 16, n] {
            file.push(char::from(b'a' + (digit % 16) as u8))
                .expect(rt, "memory");
        }
        file.push_str("\t\tあ\tア\n").expect(rt, "memory");
    }
    file
}

// Tells the fault of a file of so many rules, if it has one.
fn expect_many<R: Abort>(rt: &R, alloc: Global, count: usize, fault: Option<RuleFault>) {
    let file = many_rules(rt, alloc, count);
    expect_fault(rt, alloc, file.as_str().as_bytes(), fault, "many rules");
}

// Tells the fault of so many bytes of a comment, if they have one.
fn expect_long<R: Abort>(rt: &R, alloc: Global, bytes: usize, fault: Option<RuleFault>) {
    let file = vec![in alloc; b'#'; bytes].expect(rt, "memory");
    expect_fault(rt, alloc, &file, fault, "a long comment");
}

#[test]
fn rule_files_have_limits(rt: HostRuntime) {
    expect_many(&rt, rt.alloc(), 4096, None);
    expect_many(
        &rt,
        rt.alloc(),
        4097,
        Some(RuleFault::BadLine { line: 4097 }),
    );
    expect_long(&rt, rt.alloc(), 1_048_576, None);
    let long = TextFault::TooLong { bytes: 1_048_577 };
    expect_long(&rt, rt.alloc(), 1_048_577, Some(RuleFault::NoText(long)));
    let invalid = RuleFault::NoText(TextFault::NotUtf8 { at: 1 });
    expect_fault(&rt, rt.alloc(), b"#\xFFa", Some(invalid), "no text");
}
