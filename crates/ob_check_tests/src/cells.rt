//! Cells of checkpoints, and stores that hold them.

ghost use Rattle.std.specs.Prelude.{◌≡◌, ◌<◌, ◌+◌, ◌^◌};
ghost use Rattle.ob_base.specs.Layout.{checkpoint_cells};

use hex::FromHex;
use ob_base::{Params, check_cell, checkpoint_cells, ring_cells};
use ob_cells::{Cut, read_cells, write_sealed};
use ob_mem::{Fail, MemStore};
use ob_seal::{Keys, Sealer};
use ob_store::{Blind, write_run};
use std::alloc::Global;
use std::process::Abort;

// The cells 17 to 27 of a store of 8 keys that was just formatted under the keys of the bytes 0 to
// 95. They were made with another SHA-256 and a plain ChaCha20.
static FORMATTED: [&str; 11] = [
    "01000000000000002300000000000000558f0a7a99b6beb2fc9a5d961ec0aacf0f2e0d8c12e2951aea57c250128c37391fd99a5fb7b078d4fc325e0a343c5b78f05f0e50d1e1d6d776260cf98dccb1701271b34123c7c7c5269cc44192802d6e62e4e7596a66ab9831afc57178251179f8be566065d52e1a2cfe51a9a0d557b4",
    "010000000000000024000000000000008598c98b4e5a568b3de9d4eb2301b5e1651926b64e7b653d90e78737f622c210566919e95854e548d2286b4e5273ff02daee432d3ce0d20facbd3dfc7194913707de7c0bf40c37bf686f8dc4b739c0d170c44705f263ab0bb063e97f6f0ab056512d5d64d7df1fd282282c5125549752",
    "010000000000000025000000000000007c982662785eb29f935191c2d358a9fb41944a30fcbbb837c4f67e27c46f42404eb44fb9f9a1411f17514423d2a766cddbf40fcec4993ad0b163d10d3f095b246924a4bb3e231b634080cb5af82fa0953cf6445a5115974f9428704ecd7c7b0f00aa89499a239f2b110a183c464b5a9a",
    "010000000000000026000000000000003dd1a6c6159096b43cafa47436c8eac1a25c85ef2b982a25422c4ac30d668c0e5b2c95051073c3d5769607f8b65f21086b194d17182a8b3478c2132517140ca229c419d49bf44383179310db5fd5d2e557f55cd9724f51e565465888e240b6a97add2674d0ae34e8b29061827f0caaed",
    "010000000000000027000000000000009512af3e8491ac7142a071d97fa8836a55beac69040dd934bbc1bfae5b71045a4fc07f96fe1ead944817f8877b0714c44dac411e9f2271920b96ada73e9e2bd6f77afe54754b3c7a855ab6819941b9573b01ce2ec0214f44907211e2e1368187b84ca7e0106d957e1ceb301d30bd9972",
    "0100000000000000280000000000000055d5a13f8dc0596a947378ff2dbfbe80175f6397ad83df2c8b690cb5af08c78b79b64aa97c5d305a73cb3416257fbd516b2bc021d2a9dcb896e6c85d7469cde542db003f6fd17836b8a4a7b67d0ad83cd88a93e4cf41b01fac46aa35cd4bd62e7b57fd542c0323e719b4c6ffd009b059",
    "01000000000000002900000000000000091c67b4d2fea5b744598e416ea98b9db144d442dddaef458b09e4ead57b9aca9b516d2d8ba00508a3d29cd3eefd5d1bcf52dc5c5564d2c99f246beb66973d8bb204c8924293f0939bb79c7a38ea555fb37b65837a1ea2cfd1215081fdd63901ac96da2b04d2f63b8d2184ff4bcd97c4",
    "01000000000000002a00000000000000c99d1778273566f719cfa2eeac731cbf8e6909d9d01fe2a40c5e473ab48199f65f02e93c8b4f992d7ef95a143d90c4fcc41d1b7820fb23b516a794bf9512512f7892c5f658ac686fb66561d9063374349d168b1ccd4f540c002db9f0a57b923e0ff72806c10e5bb93c626d426d02fffc",
    "01000000000000002b00000000000000106464a221ac59b14178807572bafc42825cea3b88cd807de8db41806d2d799558ff06aca523fb3a9f8daca26f2e93990f7a5abd507b4bf1b22a2d4fe5cd65d6f511d42728802ddbddfe34a7ee0bb791eed4c81d1345f277b22e1c0d83a9df23783ca03b27e00c26d682a14708fb1b93",
    "01000000000000002c0000000000000071a0ca7cd044550bc1ac09c6aa831a38a47afa14ce4a4c93ba9d202e7b728e2f3371d6efd0c738babe0deeba19b31e3b379328354888ecb8b0d6ba3598a6ef3e2859e0f4237cf0e5e122acdd2322b841450e6f0e088bd101d1088a2fcb388fd455e483bed526de40ebbb414d7f024178",
    "01000000000000002d00000000000000350b99b74c2f0d1629f36f6699106496099949a8ebdfd5923e59a3d3666b3e26fa9390022f039566e32f0b1b697a13e5c6aa381f62fbccc28b14204e3868fad81aa28013eb66c4a90537ede12f2975663cb4d7b78f28fb35cd002cb9a7789d19c4297b89b1e3583145b1eaf42e64583d",
];

// The cells 28 to 38 of such a store after an epoch that wrote key 5, made likewise.
static WRITTEN: [&str; 11] = [
    "02000000000000001b000000000000008666d13c54fa737bfe8e61fbad1049d419def9f8e240e695229e7be54cbb7ec9d6af516137244649a416e5f3a9426e25f19cc7590312881ca92484ce08f70e6fba73f14ebe5ddaa9e3c18c6d3d339914b377888938217ae3c78a75c8b8858e5d13c010ea706fb466d949aece5bcfa591",
    "02000000000000001c000000000000009912e96aeed82982086d615785028f178fe40caa3f52d59adb820d7eecfd11a673bbb90ac86085419260d5a74fa5f16cfb3b087bde2cfa456c0a9fdc9866b1b3cc62a5eb1ba913447e24556c5938d248598afedb105791688498327faa0612071292d4860a73ff1e986d523c93fd2147",
    "02000000000000001d00000000000000c7632b38b033c87f577fac0d582435b082513942fcaedee26466c134dc0bcd2bc205a43fd4a9bfade39d19f7c0353ac49e688f420086cc10b8ab4e5ea8dc4ed639617b349cbd032763ac879ff3a3e7e78c0c5d21936af94089c4cb22e10ea9a89da54f590fbc22ea25031895a449710a",
    "02000000000000001e000000000000002872ab878ce42d9e1e69aa6792ea0eb67d49f101b48b0be53b76b340fbb188f20e6a4afe38318ac92effcf8803a133321829f6e319aa5a3c653d6ffac05e383e1bff0ebfb7ef998dfc842c042ca72b8b1a8109280e3c2c5745a5d08906f7bd1d24919155868c0106f4beaae40b687e06",
    "02000000000000001f000000000000002e57d328e59325e7c6e9a0e81e58933adcc8f2256b4476cdf3a146f495ded4924c1f641fb397e0322436f6c0053fe3453764561865111504b4b9b26cca11706aac85bf5243c7f856c6a2c945010ef357194270c0c8ee7867599f4d6467e20c390a1c4977d69bd6c3024f720fdab2dfe6",
    "020000000000000020000000000000005b0d1cd29760ffb5714cd25732ac712e66df6e622dae36475798ad96d175341ec7a8ae6367e0551316ffb8364da6d4d28c112e9a4051b5aa09b5b2def42daaf7c2ffd44c7af08261acaf009bdbdb5fb204efb15af7218deb32fcdb760c52de52280d9e9de81a8165f301f1358bf013fc",
    "020000000000000021000000000000005636c6b76c4c6e954a1860275d8c134f8ae48084b73d5adf213727f9ddb6b469ee08a8ae3f52bb650a5417ba6840d605e68cb265cc45d7a76c4f3fb7d2aabcad146c75a56d86850e1b7ac14405ebb98c7f6e6bbdcad8d8e9a062a84c62b4fe3a05faf5cc5cbfbca4927e3ef611586d6b",
    "0200000000000000220000000000000000baa6f3fe8ca64c5f01340638100fad0845393a80d3fd8d2cf972216a8f8bc19d993f4437737d58ac7329f72176db223699cafd8c205aba85e9fa459111d5e95cf721da41be462e79ae1c8ccf18525c749f6a251321f3f838517ebf378360bedfc76ad162a0f628682f93fbe68f890c",
    "0200000000000000230000000000000005de927d8fcad385846d32f723ea0b43938326686694831dbbd121e54caa37f92522b4284d1774e44b1308bfc9612a3d2ab2447f64508089b709d20c26a9e76672cf81da068d41c0cc54b90753095478d07dda9ac040301e0ea869f574a929facb43c897b2f5678039aac7b480882397",
    "02000000000000002400000000000000c54130aceb92b14af94b0905aa8a396928e2ab3771772f080fee7a2529155288cf2c7e8403aa557b6ae88070070da087ae096ce6d09da9f089ae5882c709c49c14b09999f065e3bac573c70746c476017583de9fcb8b6255e650dfc079adc12233fe87cde96f32fa5abc4f044c17c0ba",
    "0200000000000000250000000000000031ee88739bbc9db1312aa48ecb02bada2ddf9709beda4f70888293d13ca18307b45bf73dd4ce105e7a0a3033e941463627cf2ade402cbf9d03315ee8bbad9251315006470ae551f58003860a77c5f99d43926104c98813c6118f1ee2d4fff18857ecdeabf26dc7c73bbfadb4d7f7d13d",
];

/// The cells of the checkpoint of epoch 0 or of epoch 1.
fn digits_of(epoch: u64) -> &'static [&'static str; 11] {
    if epoch == 0 { &FORMATTED } else { &WRITTEN }
}

/// The same as bytes.
pub fn cells_of(rt: &impl Abort, epoch: u64) -> [[u8; 128]; 11] {
    let digits = digits_of(epoch);
    let mut cells = [[0; 128]; 11];
    for i in 0..11 {
        let bytes = <[u8; 128] as FromHex>::from_hex(digits[i]);
        cells[i] = bytes.ok().expect(rt, "digits");
    }
    cells
}

/// The parameters with these numbers.
pub fn params_of(rt: &impl Abort, numbers: &[u32; 9]) -> Params {
    let [n, l, z, s, r, br, bw, e, t] = *numbers;
    Params::new(n, l, z, s, r, br, bw, e, t).expect(rt, "parameters")
}

/// Eight keys; seven buckets of two real and three dummy slots.
pub const SMALL: [u32; 9] = [8, 2, 2, 3, 2, 2, 2, 2, 8];

/// The first cell of the area of an epoch.
pub fn area_of(p: &Params, epoch: u64) -> u64
    ensures few { result + checkpoint_cells p.now < 2 ^ 64 }
    ensures low { result < 2 ^ 24 }
{
    if checkpoint_cells(p) == 0 {
        return 0;
    }
    check_cell(p, (epoch % 2) as u8, 0)
}

/// A sealer of a generation under the keys of the bytes 0 to 95.
pub fn new_sealer(generation: u64) -> Sealer
    ensures { result.next ≡ 0 }
{
    let mut bytes = [0; 96];
    for i in 0..96 {
        bytes[i] = i as u8;
    }
    Sealer::new(&Keys::from_bytes(&bytes), generation)
}

/// The same behind so many seals.
pub fn sealer_after(generation: u64, seals: u64) -> Sealer {
    let mut sealer = new_sealer(generation);
    for _seal in 0..seals {
        let _ = sealer.seal(0, &[0; 96]);
    }
    sealer
}

/// A store of these parameters, where these calls fail.
pub fn store_of(rt: &impl Abort, alloc: Global, p: &Params, fails: &[Fail]) -> MemStore
    ensures { result.log.out ≡ 0 }
{
    let fails = fails.to_vec(alloc).expect(rt, "memory");
    MemStore::new(alloc, ring_cells(p) as usize, fails).expect(rt, "memory")
}

/// The same with the checkpoint of epoch 0 or of epoch 1.
pub fn store_with(
    rt: &impl Abort,
    alloc: Global,
    p: &Params,
    epoch: u64,
    fails: &[Fail],
) -> MemStore
    ensures { result.log.out ≡ 0 }
{
    let mut store = store_of(rt, alloc, p, fails);
    let cells = cells_of(rt, epoch);
    assert!(rt; write_run(&mut store, area_of(p, epoch), &cells, &mut Blind).is_ok());
    store
}

/// Whether a store has the cells of the checkpoint of epoch 0 or of epoch 1.
pub fn has_cells(rt: &impl Abort, p: &Params, epoch: u64, store: &mut MemStore) -> bool {
    let mut cells = [[0; 128]; 11];
    let read = read_cells(store, area_of(p, epoch), &mut cells, &mut Blind);
    let wanted = cells_of(rt, epoch);
    for i in 0..11 {
        if cells[i] != wanted[i] {
            return false;
        }
    }
    read.is_ok()
}

/// A store whose area of an epoch has these plain bytes, under the first seals of generation 2.
pub fn sealed(rt: &impl Abort, alloc: Global, p: &Params, epoch: u64, plain: &[u8]) -> MemStore
    ensures { result.log.out ≡ 0 }
{
    let mut store = store_of(rt, alloc, p, &[]);
    let mut sealer = new_sealer(2);
    let (base, many) = (area_of(p, epoch), checkpoint_cells(p));
    let cut = Cut { bytes: plain };
    assert!(rt; write_sealed(&mut store, &mut sealer, base, many, &cut, &mut Blind).is_ok());
    store
}
