ghost use Rattle.std.specs.Prelude.{◌≡◌, ◌≤◌, ◌<◌, ◌+◌, ◌^◌, ◌∷◌, ◌++◌, [], List, ℕ, length, take, codes};
ghost use Rattle.std.specs.Prelude.{◌/◌, ◌%◌, slice_index};
ghost use Rattle.mm_types.specs.{glyph, decimal};
ghost use Rattle.mm_move_rules.specs.{numbered, place_onto, key_onto, kind_onto, move_onto, spelling_of_move, IsKey, IsPlace, IsKind, IsMove};
ghost use Rattle.mm_log_writer.specs.Few.{few_entry};
ghost use Rattle.mm_log_writer.specs.Lines.{Puts};

use mm_text::LineBuf;
use mm_types::{Frame, Key, LineKind, Move, Place, Stored};

/// Room for the line of a move, of at most 66 bytes, and for what is stored past its end.
pub(crate) type Line = [u8; 80];

/// Room in which nothing stands yet.
pub(crate) const EMPTY: Line = [0; 80];

/// The digits of each number below 1,000, filled up to three, and how many they are as a digit too.
#[rattlefmt::skip]
static FEW: [u8; 4000] = *b"\
    0  11  12  13  14  15  16  17  18  19  110 211 212 213 214 215 216 217 218 219 2\
    20 221 222 223 224 225 226 227 228 229 230 231 232 233 234 235 236 237 238 239 2\
    40 241 242 243 244 245 246 247 248 249 250 251 252 253 254 255 256 257 258 259 2\
    60 261 262 263 264 265 266 267 268 269 270 271 272 273 274 275 276 277 278 279 2\
    80 281 282 283 284 285 286 287 288 289 290 291 292 293 294 295 296 297 298 299 2\
    10031013102310331043105310631073108310931103111311231133114311531163117311831193\
    12031213122312331243125312631273128312931303131313231333134313531363137313831393\
    14031413142314331443145314631473148314931503151315231533154315531563157315831593\
    16031613162316331643165316631673168316931703171317231733174317531763177317831793\
    18031813182318331843185318631873188318931903191319231933194319531963197319831993\
    20032013202320332043205320632073208320932103211321232133214321532163217321832193\
    22032213222322332243225322632273228322932303231323232333234323532363237323832393\
    24032413242324332443245324632473248324932503251325232533254325532563257325832593\
    26032613262326332643265326632673268326932703271327232733274327532763277327832793\
    28032813282328332843285328632873288328932903291329232933294329532963297329832993\
    30033013302330333043305330633073308330933103311331233133314331533163317331833193\
    32033213322332333243325332633273328332933303331333233333334333533363337333833393\
    34033413342334333443345334633473348334933503351335233533354335533563357335833593\
    36033613362336333643365336633673368336933703371337233733374337533763377337833793\
    38033813382338333843385338633873388338933903391339233933394339533963397339833993\
    40034013402340334043405340634073408340934103411341234133414341534163417341834193\
    42034213422342334243425342634273428342934303431343234333434343534363437343834393\
    44034413442344334443445344634473448344934503451345234533454345534563457345834593\
    46034613462346334643465346634673468346934703471347234733474347534763477347834793\
    48034813482348334843485348634873488348934903491349234933494349534963497349834993\
    50035013502350335043505350635073508350935103511351235133514351535163517351835193\
    52035213522352335243525352635273528352935303531353235333534353535363537353835393\
    54035413542354335443545354635473548354935503551355235533554355535563557355835593\
    56035613562356335643565356635673568356935703571357235733574357535763577357835793\
    58035813582358335843585358635873588358935903591359235933594359535963597359835993\
    60036013602360336043605360636073608360936103611361236133614361536163617361836193\
    62036213622362336243625362636273628362936303631363236333634363536363637363836393\
    64036413642364336443645364636473648364936503651365236533654365536563657365836593\
    66036613662366336643665366636673668366936703671367236733674367536763677367836793\
    68036813682368336843685368636873688368936903691369236933694369536963697369836993\
    70037013702370337043705370637073708370937103711371237133714371537163717371837193\
    72037213722372337243725372637273728372937303731373237333734373537363737373837393\
    74037413742374337443745374637473748374937503751375237533754375537563757375837593\
    76037613762376337643765376637673768376937703771377237733774377537763777377837793\
    78037813782378337843785378637873788378937903791379237933794379537963797379837993\
    80038013802380338043805380638073808380938103811381238133814381538163817381838193\
    82038213822382338243825382638273828382938303831383238333834383538363837383838393\
    84038413842384338443845384638473848384938503851385238533854385538563857385838593\
    86038613862386338643865386638673868386938703871387238733874387538763877387838793\
    88038813882388338843885388638873888388938903891389238933894389538963897389838993\
    90039013902390339043905390639073908390939103911391239133914391539163917391839193\
    92039213922392339243925392639273928392939303931393239333934393539363937393839393\
    94039413942394339443945394639473948394939503951395239533954395539563957395839593\
    96039613962396339643965396639673968396939703971397239733974397539763977397839793\
    98039813982398339843985398639873988398939903991399239933994399539963997399839993";

/// A byte of the entry of a number below 1,000.
#[inline(always)]
fn few_byte(n: u32, i: usize) -> u8
    requires few { n < 1000 }
    requires within { i < 4 }
    ensures { result ≡ slice_index (few_entry n) i }
{
    FEW[4 * n as usize + i]
}

/// Writes a byte.
#[inline(always)]
fn put_byte(out: &mut Line, at: usize, byte: u8) -> usize
    requires { at < 80 }
    ensures text { take result out.new ≡ take at out.old ++ byte ∷ [] }
    ensures end { result ≡ at + 1 }
{
    out[at] = byte;
    at + 1
}

/// Writes the two digits of a number below 100: the last two of the number that is 100 more.
#[inline(always)]
fn put_pair(out: &mut Line, at: usize, n: u32) -> usize
    requires few { n < 100 }
    requires room { at + 2 ≤ 80 }
    ensures text { take result out.new
        ≡ take at out.old ++ glyph (n / 10) ∷ glyph (n % 10) ∷ [] }
    ensures end { result ≡ at + 2 }
{
    let next = put_byte(out, at, few_byte(100 + n, 1));
    put_byte(out, next, few_byte(100 + n, 2))
}

/// Writes a number of at most three digits. Three bytes are stored whatever the number: what stands
/// behind the digits is written over by what comes next.
#[inline(always)]
fn put_few(out: &mut Line, at: usize, n: u32) -> usize
    requires few { n < 1000 }
    requires room { at + 3 ≤ 80 }
    ensures text { take result out.new ≡ take at out.old ++ decimal n }
    ensures few { result ≤ at + 3 }
{
    let second = put_byte(out, at, few_byte(n, 0));
    let third = put_byte(out, second, few_byte(n, 1));
    put_byte(out, third, few_byte(n, 2));
    at + few_byte(n, 3) as usize - 48
}

/// Writes a number of at most five digits.
#[inline(always)]
#[tactic(auto, using(crate::proofs::Written::written))]
fn put_short(out: &mut Line, at: usize, n: u32) -> usize
    requires few { n < 100000 }
    requires room { at + 5 ≤ 80 }
    ensures text { take result out.new ≡ take at out.old ++ decimal n }
    ensures few { result ≤ at + 5 }
{
    if n < 1000 {
        put_few(out, at, n)
    } else {
        let next = put_few(out, at, n / 100);
        put_pair(out, next, n % 100)
    }
}

/// Writes a number of four digits or more.
#[inline(never)]
#[tactic(auto, using(crate::proofs::Written::written))]
fn put_many(out: &mut Line, at: usize, n: u32) -> usize
    requires many { 1000 ≤ n }
    requires room { at + 11 ≤ 80 }
    ensures text { take result out.new ≡ take at out.old ++ decimal n }
    ensures few { result ≤ at + 10 }
{
    if n < 100000 {
        put_short(out, at, n)
    } else if n < 10000000 {
        let next = put_short(out, at, n / 100);
        put_pair(out, next, n % 100)
    } else {
        let third = put_short(out, at, n / 1000000);
        let second = put_pair(out, third, n / 10000 % 100);
        let last = put_pair(out, second, n / 100 % 100);
        put_pair(out, last, n % 100)
    }
}

/// Writes a number in decimal.
#[inline(always)]
fn put_number(out: &mut Line, at: usize, n: u32) -> usize
    requires { at + 11 ≤ 80 }
    ensures text { take result out.new ≡ take at out.old ++ decimal n }
    ensures few { result ≤ at + 10 }
{
    if n < 1000 {
        put_few(out, at, n)
    } else {
        put_many(out, at, n)
    }
}

/// Writes some bytes. They are known where this is called, so that they come to a store or two.
#[inline(always)]
pub(crate) fn put_bytes(out: &mut Line, at: usize, bytes: &[u8]) -> usize
    requires { at + length bytes.now ≤ 80 }
    ensures text { take result out.new ≡ take at out.old ++ bytes.now }
    ensures end { result ≡ at + length bytes.now }
{
    for i in 0..bytes.len() {
        out[at + i] = bytes[i];
    }
    at + bytes.len()
}

/// A word and a number, of at most 10 digits.
#[inline(always)]
#[tactic(auto, using(mm_text::proofs::Lines::steps))]
pub(crate) fn put_numbered(out: &mut Line, at: usize, word: &[u8], n: u32) -> usize
    requires { at + length word.now + 11 ≤ 80 }
    ensures put { Puts out.old at out.new result (length word.now + 10) (numbered word.now n) }
{
    let next = put_bytes(out, at, word);
    put_number(out, next, n)
}

/// Some words.
#[inline(always)]
#[tactic(auto, using(mm_text::proofs::DigitCounts::joined))]
fn put_words(out: &mut Line, at: usize, words: &[u8]) -> usize
    requires { at + length words.now ≤ 80 }
    ensures put { Puts out.old at out.new result (length words.now) (λ b. words.now ++ b) }
{
    put_bytes(out, at, words)
}

/// A word and the number of a frame.
#[inline(always)]
fn put_frame(out: &mut Line, at: usize, word: &[u8], frame: Frame) -> usize
    requires { at + length word.now + 11 ≤ 80 }
    ensures put { Puts out.old at out.new result (length word.now + 10)
        (numbered word.now frame.0) }
    ensures in_range { frame.0 < 2 ^ 32 }
{
    put_numbered(out, at, word, frame.0)
}

#[inline(always)]
fn put_place(out: &mut Line, at: usize, place: Place) -> usize
    requires { at + 22 ≤ 80 }
    ensures put { Puts out.old at out.new result 21 (place_onto place) }
    ensures in_range { IsPlace place }
{
    let next = put_numbered(out, at, b"", u32::from(place.pid.0));
    put_numbered(out, next, b".", place.vpn.0)
}

/// Writes a key.
#[inline(always)]
fn put_key(out: &mut Line, at: usize, key: Key) -> usize
    requires { at + 23 ≤ 80 }
    ensures put { Puts out.old at out.new result 22 (key_onto key) }
    ensures in_range { IsKey key }
{
    match key {
        Key::Private(pid, vpn) => {
            let next = put_numbered(out, at, b"p", u32::from(pid.0));
            put_numbered(out, next, b".", vpn.0)
        }
        Key::Shared(area, index) => {
            let next = put_numbered(out, at, b"s", area.0);
            put_numbered(out, next, b".", index)
        }
    }
}

#[inline(always)]
fn put_kind(out: &mut Line, at: usize, kind: LineKind) -> usize
    requires { at + 52 ≤ 80 }
    ensures put { Puts out.old at out.new result 51 (kind_onto kind) }
    ensures in_range { IsKind kind }
{
    match kind {
        LineKind::Machine(frames, slots, depth, blocks) => {
            let next = put_numbered(out, at, b"machine ", frames);
            let next = put_numbered(out, next, b" ", slots);
            let next = put_numbered(out, next, b" ", depth);
            put_numbered(out, next, b" ", blocks)
        }
        LineKind::Process(pid, min, max) => {
            let next = put_numbered(out, at, b"process ", u32::from(pid.0));
            let next = put_numbered(out, next, b" ", min);
            put_numbered(out, next, b" ", max)
        }
        LineKind::Unbind(pid) => put_numbered(out, at, b"unbind ", u32::from(pid.0)),
        LineKind::Access(pid) => put_numbered(out, at, b"access ", u32::from(pid.0)),
        LineKind::Thread(pid) => put_numbered(out, at, b"thread ", u32::from(pid.0)),
        LineKind::Trim(pid) => put_numbered(out, at, b"trim ", u32::from(pid.0)),
        LineKind::Writer => put_words(out, at, b"writer"),
        LineKind::Zeroer => put_words(out, at, b"zeroer"),
        LineKind::Io => put_words(out, at, b"io"),
        LineKind::Call => put_words(out, at, b"call"),
        LineKind::Grow(count) => put_numbered(out, at, b"grow ", count),
    }
}

/// Writes a move without its line feed.
#[inline(always)]
fn put_move(out: &mut Line, m: &Move) -> usize
    ensures text { (behind : List ℕ) → take result out.new ++ behind ≡ move_onto m.now behind }
    ensures few { result ≤ 65 }
    ensures in_range { IsMove m.now }
{
    match *m {
        Move::At(line, kind) => {
            let next = put_numbered(out, 0, b"at ", line);
            let next = put_words(out, next, b" ");
            put_kind(out, next, kind)
        }
        Move::Add(key, home) => {
            let next = put_words(out, 0, b"add ");
            let next = put_key(out, next, key);
            match home {
                None => put_words(out, next, b" zero"),
                Some(block) => put_numbered(out, next, b" block ", block.0),
            }
        }
        Move::Drop(key) => {
            let next = put_words(out, 0, b"drop ");
            put_key(out, next, key)
        }
        Move::Clear(frame) => put_frame(out, 0, b"clear ", frame),
        Move::Steal(frame) => put_frame(out, 0, b"steal ", frame),
        Move::Give(frame, key) => {
            let next = put_frame(out, 0, b"give ", frame);
            let next = put_words(out, next, b" ");
            put_key(out, next, key)
        }
        Move::Read(frame, key) => {
            let next = put_frame(out, 0, b"read ", frame);
            let next = put_words(out, next, b" ");
            put_key(out, next, key)
        }
        Move::Got(frame) => put_frame(out, 0, b"got ", frame),
        Move::Bad(frame) => put_frame(out, 0, b"bad ", frame),
        Move::Map(frame, place) => {
            let next = put_frame(out, 0, b"map ", frame);
            let next = put_words(out, next, b" ");
            put_place(out, next, place)
        }
        Move::Unmap(place) => {
            let next = put_words(out, 0, b"unmap ");
            put_place(out, next, place)
        }
        Move::Soil(frame) => put_frame(out, 0, b"soil ", frame),
        Move::Write(frame, stored) => {
            let next = put_frame(out, 0, b"write ", frame);
            match stored {
                Stored::Slot(slot) => put_numbered(out, next, b" slot ", slot.0),
                Stored::Block(block) => put_numbered(out, next, b" block ", block.0),
            }
        }
        Move::Wrote(frame) => put_frame(out, 0, b"wrote ", frame),
        Move::Lost(frame) => put_frame(out, 0, b"lost ", frame),
    }
}

/// Writes a move's line, with its line feed, and gives its length. The longest has 66 bytes.
#[inline(always)]
pub(crate) fn put_line(out: &mut Line, m: &Move) -> usize
    ensures line { take result out.new ≡ spelling_of_move m.now }
    ensures some { 0 < result }
    ensures few { result ≤ 66 }
    ensures in_range { IsMove m.now }
{
    let end = put_move(out, m);
    put_byte(out, end, b'\n')
}

/// Writes what stands behind the number of a line `at`, which ends at 13.
#[inline(always)]
pub(crate) fn put_tail(out: &mut Line, kind: LineKind) -> usize
    ensures text { take result out.new
        ≡ take 13 out.old ++ (codes " " ++ kind_onto kind (0x0A ∷ [])) }
    ensures few { result ≤ 66 }
    ensures in_range { IsKind kind }
{
    let next = put_words(out, 13, b" ");
    let end = put_kind(out, next, kind);
    put_byte(out, end, b'\n')
}

/// Writes a move's line, with its line feed, at the end of `out`. The longest has 66 bytes.
pub fn spell(m: &Move, out: &mut LineBuf)
    requires { length out.old + 66 ≤ 256 }
    ensures line { out.new ≡ out.old ++ spelling_of_move m.now }
    ensures few { length out.new ≤ length out.old + 66 }
    ensures in_range { IsMove m.now }
{
    let mut line = EMPTY;
    let end = put_line(&mut line, m);
    out.push_slice(&line[..end]);
}
