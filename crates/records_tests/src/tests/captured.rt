//! TLS 1.3 connections of OpenSSL 3.0.22's `s_server` and `s_client`, captured on the loopback and opened by
//! `tools/capture-records`, which prints this file.

use crate::tests::connection::{Carried, Direction, Epoch};
use records::ContentType;

const AES_128_CLIENT_0: [Carried; 1] = [Carried {
    content_type: ContentType::Handshake,
    content: &["14000020ff65d75cc6c135dffd525a9d589941fbe2ec9d88ea76decc9d5f8883dc97ea2a"],
    padding: 0,
}];

const AES_128_CLIENT_1: [Carried; 2] = [
    Carried {
        content_type: ContentType::ApplicationData,
        content: &["61206669727374206c696e65206f662074686520636c69656e740a"],
        padding: 0,
    },
    Carried {
        content_type: ContentType::Handshake,
        content: &["1800000101"],
        padding: 0,
    },
];

const AES_128_CLIENT_2: [Carried; 2] = [
    Carried {
        content_type: ContentType::ApplicationData,
        content: &["61206c696e6520756e6465722074686520636c69656e742773206e657874206b65790a"],
        padding: 0,
    },
    Carried {
        content_type: ContentType::Alert,
        content: &["0100"],
        padding: 0,
    },
];

const AES_128_CLIENT: Direction = Direction {
    stream: &[
        "16030100c6010000c20303fb2628461d0af4da5d69f7341e8b6bb5da0f4931d6a3415d945d945f7e",
        "c267aa204e4eb3354aaeb7662b9ec610f56877bb271880acaeec5436d3811aebb380f9bf00041301",
        "00ff01000075000b000403000102000a00040002001d002300000016000000170000000d001e001c",
        "040305030603080708080809080a080b080408050806040105010601002b0003020304002d000201",
        "01003300260024001d002097579d79a26b746f021a73f5ec06b507c3bab505f8ac1bbb1d1585381c",
        "10475714030300010117030300352173c9b2ab5502b9a0b5475b6c6ad727fab08c8b5a8585a7de32",
        "b67442772cdbfb5b01f25b839290b91dc62978f5ad8c512c6a0c02170303002c3c510533c6255f79",
        "2f3a5dbaa3b3ce1ca93638a22029518efdc37dfb27a6997823d8a5eac43d1152a6e5521e17030300",
        "16c74dcd2a578ee99f57c70bb3de53b0879db5dda2f3dc1703030034c0cf8035e2df4df7930d6761",
        "64f6d8ea64f896ba0fe0807c51366c47f4cd2dc66932edc8f68f3d2d9aecd5ad3741193495368956",
        "17030300130a02fd933a7359eb6a743abd91fcddab62ce3a",
    ],
    epochs: &[
        Epoch {
            secret: "018c2d60b776b982e5d39821e884ef827ccdfca4992d37c4921f68d7d93214c7",
            key: "52171b742962ec00e3ccc8245fca08a3",
            iv: "c23030b1373d6cc691b3b4c7",
            records: &AES_128_CLIENT_0,
        },
        Epoch {
            secret: "9a5e2dbf58d310039b956b73f1e285ebf82bb0838218b5c7c3054d34d39ddcfe",
            key: "e69e8de165aeb2971014bbfe6dac9bbd",
            iv: "45e0aba7589bc10ef13b6859",
            records: &AES_128_CLIENT_1,
        },
        Epoch {
            secret: "962b9bdc5ef35b18994885cc08812f3af36cfdc814f11257eb3d8609c725f073",
            key: "2e1e50e21edd1993bc2afb5fee3d2e95",
            iv: "43d3d4b3cebc970c1b2dfb2f",
            records: &AES_128_CLIENT_2,
        },
    ],
};

const AES_128_SERVER_0: [Carried; 4] = [
    Carried {
        content_type: ContentType::Handshake,
        content: &["080000020000"],
        padding: 0,
    },
    Carried {
        content_type: ContentType::Handshake,
        content: &[
            "0b000139000001350001303082012c3081dfa003020102021470742dc92d4c95d424058c4c3c8f84",
            "98547d13bd300506032b6570300c310a300806035504030c0174301e170d32363131323630373334",
            "34335a170d3236313132373037333434335a300c310a300806035504030c0174302a300506032b65",
            "70032100f82357847daa2f33b5c7dfbd4ce8f3b9bf02beeeb282a43826ed2a9d816b4959a3533051",
            "301d0603551d0e04160414f971a278edfdf3820fe4e06d125e6fea60259af5301f0603551d230418",
            "30168014f971a278edfdf3820fe4e06d125e6fea60259af5300f0603551d130101ff040530030101",
            "ff300506032b6570034100b6de21068e2c41ac912db555dbdc5b8bbc34978e607fe34228ac781f51",
            "481567c4a1b6cae5556cf6186402765f333cfe62e942400cd6e214161363a0e705080b0000",
        ],
        padding: 0,
    },
    Carried {
        content_type: ContentType::Handshake,
        content: &[
            "0f00004408070040dc17bc4bd7cec571ec40052319832f2fce33238508d594dcd94c6d50327095fe",
            "ad0222dbbb6763b24d816e319aab3eb4c6e10dc4ad8ad567e062820e43868808",
        ],
        padding: 0,
    },
    Carried {
        content_type: ContentType::Handshake,
        content: &["140000206b70d6992755c27b4b42df84c2a21edc58c1c978715edfc6e3f2d28869edcdfa"],
        padding: 0,
    },
];

const AES_128_SERVER_1: [Carried; 3] = [
    Carried {
        content_type: ContentType::Handshake,
        content: &[
            "040000d500001c20214e0a8808000000000000000000c0fbd3d7ea337e6235eecd6dac2dca370d7c",
            "0b92edadca97af0ae3e4baea71afd2385dbc95355380d596208b7f9f16db4331903ca63914486e5c",
            "a24558344fd8bb0ca212ae4abc6e721c1cd936c0d2a405ce0e0cf8cfde1c6aed7af7c16313855938",
            "1ee4efe4cdffd06343351dbdb484b9e212e568a9de49cbfb2eb673c35078b103a8392c32544f9dfa",
            "4c8f24815c5b0565ee2743e0fd58e986ec534fa92cce1efbcdd1966094d485470cc1b2659a17aca2",
            "64bc99d6654ac4ef20250e2a0ad6790000",
        ],
        padding: 0,
    },
    Carried {
        content_type: ContentType::ApplicationData,
        content: &["616e64206f6e65206f6620746865207365727665720a"],
        padding: 0,
    },
    Carried {
        content_type: ContentType::Handshake,
        content: &["1800000100"],
        padding: 0,
    },
];

const AES_128_SERVER_2: [Carried; 2] = [
    Carried {
        content_type: ContentType::ApplicationData,
        content: &["616e64206f6e6520756e646572207468652073657276657227730a"],
        padding: 0,
    },
    Carried {
        content_type: ContentType::Alert,
        content: &["0100"],
        padding: 0,
    },
];

const AES_128_SERVER: Direction = Direction {
    stream: &[
        "160303007a020000760303194c87360b38df01331af694a660bb60aae7045d6a2a8efd2e9b2cacf7",
        "8e822f204e4eb3354aaeb7662b9ec610f56877bb271880acaeec5436d3811aebb380f9bf13010000",
        "2e002b0002030400330024001d00205cb80cdc630e69dde5b4f6adf6c271fe34101132851c8802a1",
        "24f5ab04cba9451403030001011703030017a4c2c9b9ceb217382e2ac2e371a0c7dcccbff0ca44fd",
        "41170303014ee3598f6582016060bacc842ff317c3416ca994734660fafc26b2ef5d897a94ee4adb",
        "8de3fcee835aa21c456d55beaadceec58ed0e43fab5113102b6d31fa98ef920edfa5dbc177ee4609",
        "c6dc9a975d88bb390760843d939663198a3b7cbf19a4f48ac5e253398b667ba77489e3d3392a2132",
        "8e5bc8d985539945528e8ae86dd173b28e409e19a757d3a65555eea385497fcb767dd3879a498f8b",
        "e1a98846fa1f7724433580ffb3c75f45008543129c785dd9d0fe2705e9a2c72e4653d56c7865bc2e",
        "da138c1bd2d7fda35533b215aed45945d831da88ab58e5191959413438ba12bb50f4e36534111838",
        "d4cd271c09174a3666be5fa64d6913a050e5bcd64f381446918be786d738546e5681df371f347171",
        "b0cb97a1034e08b171105f1cd8f057b70e3ab92bf746fa9f86942801e22b8ba60cdc8264c170cd34",
        "d6cb0b6b085a971feb6346f89704fc96ecc89bd81703030059fa4a89444f67aaccdee5483784b855",
        "3791b38220c898cd4030a59a1d6d3424dd6a673815eb1c82566a7d800150010c8982980f6191df99",
        "df3dc0213e430f4483aab38b490b1c316dbb3bf2a746cfb36d36ff5f80cfa3e338d71703030035a3",
        "fedff7b777786c0359e30701a43daaa26536fa5fb874c2099ea6b9d150a26a4a61db16a1101668c7",
        "90c777d50655552e551b867017030300eaeb99bfe6fc9b89b7a9e41fde6dd149f97e2704ab14afdc",
        "123853502102d7aa5137333872d7b49c81faa256ad91e7140cb0ad6f7c97d2eeddf486cfe2677887",
        "e4f2b11f05cf8095f5cfcdcd7dfce4d2fc2cc7aea7ee98624681120587ff5d52b9827cea54e536b4",
        "ae7e656c88f3ae1e0035a66bef2db6c204658f3cb68a7b9035d910ad87dba6f88690ad4b36bd0298",
        "7fd8e04d622899fd187068e8386ab621a4849985152d9dd1aeeabc40ef89e54c16aa9aa082d814e8",
        "f0e6dfa0e00954ed51aeeeca1a4c7092d4f6d315d4af64f3cfe277ec2182cb7d2aa5e1bdebc7d89d",
        "b6d3b34868bd8ca4318a831703030027fd2a347db83b1223585d1de2a805515d35013b94c74ba79c",
        "32a84c92f140f01d7e22f25d67472517030300162966d4063f78140381d002ed6e6f5442d0225a46",
        "040e170303002cdbc86ce672927eb0149a87cfa8184eff7cc40e650ebb7815cb9daa9760e2eccd12",
        "78c6715b579c94c98105e0170303001338656f00e52ee3371beaec87e23c0149c775bd",
    ],
    epochs: &[
        Epoch {
            secret: "ca1d88ae12cd2737c7193bfd8a96e0462c2e2635b587e6baee254cb65f665bb1",
            key: "41b4e862d05f9b9bf339c944348b3989",
            iv: "4a73ca4fbefe0c75f04ce3a4",
            records: &AES_128_SERVER_0,
        },
        Epoch {
            secret: "c33817f3b262d5fb903bec41ae12a311f0d96ec799f1274a06627936c0938f03",
            key: "7fd663492a4b6a2ce2fcdb79c43dc1e4",
            iv: "8f094e5a18d2d7131be92586",
            records: &AES_128_SERVER_1,
        },
        Epoch {
            secret: "23bed274997adc8b5b260837e4fefaa17dd0055a8dd4c9188ce95a2e8d9b1c3a",
            key: "0bda297598b865e6d8a51232bb3204db",
            iv: "75f8987fe932751382c107fc",
            records: &AES_128_SERVER_2,
        },
    ],
};

const AES_128_PADDED_CLIENT_0: [Carried; 1] = [Carried {
    content_type: ContentType::Handshake,
    content: &["14000020a6616aee15a1cfc7c8ef080c34f7dae91b72a386c6934937cd5180e717cf0b56"],
    padding: 27,
}];

const AES_128_PADDED_CLIENT_1: [Carried; 2] = [
    Carried {
        content_type: ContentType::ApplicationData,
        content: &["61206669727374206c696e65206f662074686520636c69656e740a"],
        padding: 36,
    },
    Carried {
        content_type: ContentType::Handshake,
        content: &["1800000101"],
        padding: 58,
    },
];

const AES_128_PADDED_CLIENT_2: [Carried; 2] = [
    Carried {
        content_type: ContentType::ApplicationData,
        content: &["61206c696e6520756e6465722074686520636c69656e742773206e657874206b65790a"],
        padding: 28,
    },
    Carried {
        content_type: ContentType::Alert,
        content: &["0100"],
        padding: 61,
    },
];

const AES_128_PADDED_CLIENT: Direction = Direction {
    stream: &[
        "16030100c6010000c20303567f2cfeaf818e70e0be0c23c80309e4b68d2c136cb27f74a5d13b12aa",
        "f5ed9d20ae52a3a46b42fae883ef00b22d99444a6780efff39d0e8d4935c405e1ca32bc700041301",
        "00ff01000075000b000403000102000a00040002001d002300000016000000170000000d001e001c",
        "040305030603080708080809080a080b080408050806040105010601002b0003020304002d000201",
        "01003300260024001d0020ec3ecf3078822e241952e876963c8fa88ac46e7eb984c8ea97fd1ae942",
        "73b043140303000101170303005088c422acb647029e4adbfd782f46c98e3904d861895ce9ac6649",
        "1257491485e1294504ac57f46d2461cc020f313512eb3856927ce8166e1d37ea18c615f69d092b72",
        "e16cc023483f4658e6602a8306961703030050db1fbedc034224bbed4a2ca1c82579028c890fd67a",
        "979e179882e38143de24c6878f02713969b77a8ac512fe13bc617216e5407f145d20c1711cbb50e4",
        "38b9304d56829feeb735058760ae4d3b4309c81703030050d3c1c363f964cee47719cb92bdae950c",
        "b001da146c70b69e2c7a89a28472790780ab712f8847d8a9999a9d91bac22e3d1e92856870052d02",
        "5f0095effc32c366808c2e0dc172fe284cc6f031fec871a117030300505231d8f64ea8a970e45fcb",
        "0d3be8d85cf21fed6016a97710638212161bfb49ea2c7d36283d1791a78042428203653281c5a6f7",
        "0a3f651840edeb5ce714adf56ecf1e18a29b39ae750008adac0faa33e71703030050bfc3af617c78",
        "366a786b152b7d8c912132725e1df251d05adbe6498b9bf74ac7456db222d8d06d64d37feda26fc0",
        "db89d0d5ca1be9294f0587c349d46af1e188e074ed92a36544d38bd81a615aed4b18",
    ],
    epochs: &[
        Epoch {
            secret: "879790b98badcfbbdb0b0f8b8af0650ee20037aa195028f1fd8b6df31f036955",
            key: "6963e7f9351155869aa1a34112fd98c9",
            iv: "d850e2dc8bcdae067ff0911d",
            records: &AES_128_PADDED_CLIENT_0,
        },
        Epoch {
            secret: "c74a2419b6d2097de47915b10e06002379669c8a068b2727c723fac4440b27cc",
            key: "d608396e551372b978d12b701c2da183",
            iv: "b7faaf80c38c24aa04f205a3",
            records: &AES_128_PADDED_CLIENT_1,
        },
        Epoch {
            secret: "1b9e26e717e9338bd67c58893e1f41f83b5ace4679c0b5b56aa2c4149bb26eba",
            key: "d567f19cd597b1b26257d9ac6d229a70",
            iv: "ea1185009fb42321ff3247f8",
            records: &AES_128_PADDED_CLIENT_2,
        },
    ],
};

const AES_128_PADDED_SERVER_0: [Carried; 4] = [
    Carried {
        content_type: ContentType::Handshake,
        content: &["080000020000"],
        padding: 57,
    },
    Carried {
        content_type: ContentType::Handshake,
        content: &[
            "0b000139000001350001303082012c3081dfa003020102021470742dc92d4c95d424058c4c3c8f84",
            "98547d13bd300506032b6570300c310a300806035504030c0174301e170d32363131323630373334",
            "34335a170d3236313132373037333434335a300c310a300806035504030c0174302a300506032b65",
            "70032100f82357847daa2f33b5c7dfbd4ce8f3b9bf02beeeb282a43826ed2a9d816b4959a3533051",
            "301d0603551d0e04160414f971a278edfdf3820fe4e06d125e6fea60259af5301f0603551d230418",
            "30168014f971a278edfdf3820fe4e06d125e6fea60259af5300f0603551d130101ff040530030101",
            "ff300506032b6570034100b6de21068e2c41ac912db555dbdc5b8bbc34978e607fe34228ac781f51",
            "481567c4a1b6cae5556cf6186402765f333cfe62e942400cd6e214161363a0e705080b0000",
        ],
        padding: 2,
    },
    Carried {
        content_type: ContentType::Handshake,
        content: &[
            "0f00004408070040f1209c4d46e5fd483598c4d53ae6cf23749217fc6f96f82aa489c93505e6c3bc",
            "1581a3b077684897848d870b257f4b16dde3f5772d2b0634d260b666e9d05903",
        ],
        padding: 55,
    },
    Carried {
        content_type: ContentType::Handshake,
        content: &["140000202a3f467f50ad41af4dc5cae465f5cac815269c9af3dabdd04ffefca97e8576f4"],
        padding: 27,
    },
];

const AES_128_PADDED_SERVER_1: [Carried; 3] = [
    Carried {
        content_type: ContentType::Handshake,
        content: &[
            "040000d500001c20e2a0950708000000000000000000c02ef58b1751894917a5f56ac0c79a6cdfdc",
            "ec42daef848c23880f3f2f033e5b33b13b38d1f7e01e71ffb25a7f0028018d3897f05d3a750c8aa7",
            "d56ed1130a8a6aef40d96cc8c141c4d7ab5599317c0eeb5b69d905f70902336f797813a17b254695",
            "6f2376bc6f0d2a6e56299bd821487b1952b930a89258351b7ddf048c6c9a3af6b975aca32a9150b2",
            "c04b0f6b72314437dd20bfa057ad246a14fb0da823bd007a6ff041b8523bfb341b32a0b646e71ca7",
            "c75aa70e9e297050e7e18e3679ad3f0000",
        ],
        padding: 38,
    },
    Carried {
        content_type: ContentType::ApplicationData,
        content: &["616e64206f6e65206f6620746865207365727665720a"],
        padding: 41,
    },
    Carried {
        content_type: ContentType::Handshake,
        content: &["1800000100"],
        padding: 58,
    },
];

const AES_128_PADDED_SERVER_2: [Carried; 2] = [
    Carried {
        content_type: ContentType::ApplicationData,
        content: &["616e64206f6e6520756e646572207468652073657276657227730a"],
        padding: 36,
    },
    Carried {
        content_type: ContentType::Alert,
        content: &["0100"],
        padding: 61,
    },
];

const AES_128_PADDED_SERVER: Direction = Direction {
    stream: &[
        "160303007a020000760303ed0c5e245cad77718c66178fa94162cc7815244d5818e05fb1bbb987a8",
        "88696c20ae52a3a46b42fae883ef00b22d99444a6780efff39d0e8d4935c405e1ca32bc713010000",
        "2e002b0002030400330024001d0020460bad449edd5a47f3c8aa234b769963633047a89a0ee9ad9f",
        "37587ae10b3e4214030300010117030300503abb98c0ac2f7e7a79fb163ebe05c13c7374bac8843d",
        "ab25ce7ca3b1d69169a2dda38e9d40aff4788a2abb53aa3d42213cf952e6efc847189016e431d56d",
        "7e5453a3407f81ec546b429ea8f01488caa8170303015014a008d755d9ba01ecbda72f1c918f4a21",
        "85f00c3e41a2d5a8aed4ea6f0c7dd20b0dd5fb66a078f16f88646d3cd1a1fda1e6b2980cb3c72414",
        "c7269b9ee4da70c09729bc23e58243bdf11380cdda7d6ea043750e5ddc95459c231893e0b2070750",
        "43c33dcce2d30ec97fdee363e3fea7c01be453208a61f274933ae5c8228d492bcf4f608d665aa6f6",
        "7fee0c666afd52d1fd2a0e75207c01b495232b2ec03a89d9cad07b784ab21a2d7163e04abd1b6d54",
        "d3f5517d909c3c7985a50e5c4e97f4f882d720c96d2e862e49b0ae87153ce7e07e31e43d72323504",
        "f9a698b7acf9235f67edf67eed11cf2e6ce1c05deb9937a6cf7c6b5fd161e8a0bd44c2842c91eaed",
        "24a12a048be563759542cb62082e94530e3946bc161c061741bbf33c0631b903ddd0062177234257",
        "f50db865c6ba24b94c71a395c4e16b39360ba90ca00da191e8ec5b50e1bde0114941ba98282c5817",
        "0303009069addf51d73e37c1b32f0808988d8275a20130b65bc44c2c69490ff12517c23e79ca2cdb",
        "c29c5103ffe875eadf75f644d1f03dc7e8499c9ddab7f9dd64397499a018e93336af7352d0697f3a",
        "42bb2a30307b31b8355ade4ceda9ce51291679f0ef37f14875892cfcdbf7581980518f28eebf0e90",
        "4ae3df737d5be3b21380f47dc30784237be1717002bb02885b3ce51f1703030050150c5eb7db3f33",
        "be624c866755c1bc4f55e5c3a7ea98af601d997b9f1a0d33d7f9b064d889458e7347a4c415e03a72",
        "a6fce51b5009246cb1535e778f74e2f3dee59b8c98c598f12026a6e1ef2c09d032170303011092bf",
        "6fd19aebbe628aa9ba6d3fe3fa4045a8910ca9841c08d35938762c28fee08767dedd6b138f38e853",
        "b3ad3d2ec5dca36255d227f7f6e48d8cd0c11420a6af39717a054a88fee568a2a42f590f8a512be0",
        "75dd79da920b81479becf8eb78745d797bcdb01e447e4a15400cb8f40f7b70cfdf01ab37856fd3e0",
        "90ec44ecb07d987182070411d2a256a94e350d6b04fa8dcc575cfd056ce0de2b2025233a4988280c",
        "3f6fc2c5a248cc834f93a305c06fe5ee4d00a62b252e9e8f42b60d61d6bad0a45742d2baaa27cb41",
        "3762963e80361fa049d79c6aa7c0f52a9aae68d3df5f7d769db36ad22261988dbb4ba422d976d653",
        "a6a9d1495a62e0f9bb90e58f2eb8ed2fc59f8c0efb858ba4426b5d2f553d17030300503612f5a931",
        "46f4d8c3039aa3bacaf7ec896848d3868fe272476b0af226623fe5ebe8742bc2d8159443d075f880",
        "24d9ad81dc511f02f7b863f9709d024a85ad214c6790d7718dfd33d7063426ba967c541703030050",
        "a4bdc44174a14baa36fe8fcfca06087bc4158a9fcb2c4c10c45526d47afe472e69c8d5035f3f068b",
        "87af2222ad1dbec669af9bed3a594dd402b5e663227383e19fcfb83d06853ab071d273b1a55061c9",
        "1703030050ed3ae4b2f7ab731c6ca7511884f5f9a2ef66b45fe91e500a41f7c7e603e5e3c30cee51",
        "606aa2b5e00cef4ac9d9f2e4936646df1837052fa4a5d3baee351e964aa47655186451115e3ad82d",
        "847f7c31c5170303005028f2260a99fcc8eb1c83c713a822259548c9fbcb630813fc646c4d3918b8",
        "6ad965b6ac42f8585b35fc73c3401de4495617696290c7a36951357c8477aaeaf200c574b608031d",
        "0b97567de8c9702354e4",
    ],
    epochs: &[
        Epoch {
            secret: "5e51e60914b445157191a4a06ef6ef387012acde48f3a4938c948dd4214966b8",
            key: "1609286b806b3d44ce3784ab02c508d5",
            iv: "77737ca4867fbf4a8cafbec9",
            records: &AES_128_PADDED_SERVER_0,
        },
        Epoch {
            secret: "d07b7a1e11a1eef48b77c973bec200b21d7756462dd98a0ef64a16f8b27c33c5",
            key: "c5f369c3edeebfcf5acf423f5361b040",
            iv: "87e073a8092f57c6de2044e5",
            records: &AES_128_PADDED_SERVER_1,
        },
        Epoch {
            secret: "11eb30e5bfe6dd34372976a2f80598f17d0b37ff194c0a910baa94c756289100",
            key: "8a465f4b214ad2156d3eed21e4f8993b",
            iv: "3048f6d810fbd5eb11ed851c",
            records: &AES_128_PADDED_SERVER_2,
        },
    ],
};

const AES_256_CLIENT_0: [Carried; 1] = [Carried {
    content_type: ContentType::Handshake,
    content: &[
        "140000306e3a1a2288112a6f0036405eb4e36ae3b0cf31d1b93298c89732ff0e3686ac89aa9c1a28",
        "9bcff37c8bd08b7261a502fd",
    ],
    padding: 0,
}];

const AES_256_CLIENT_1: [Carried; 2] = [
    Carried {
        content_type: ContentType::ApplicationData,
        content: &["61206669727374206c696e65206f662074686520636c69656e740a"],
        padding: 0,
    },
    Carried {
        content_type: ContentType::Handshake,
        content: &["1800000101"],
        padding: 0,
    },
];

const AES_256_CLIENT_2: [Carried; 2] = [
    Carried {
        content_type: ContentType::ApplicationData,
        content: &["61206c696e6520756e6465722074686520636c69656e742773206e657874206b65790a"],
        padding: 0,
    },
    Carried {
        content_type: ContentType::Alert,
        content: &["0100"],
        padding: 0,
    },
];

const AES_256_CLIENT: Direction = Direction {
    stream: &[
        "16030100c6010000c203030b2368931a5e1bb9e48b59f1839f18f60700839c4bea139262094689f7",
        "139b6a200a2a3ae4475f9475e364edb70abd475960f7f602f391ad61caef2bf7a01c95c700041302",
        "00ff01000075000b000403000102000a00040002001d002300000016000000170000000d001e001c",
        "040305030603080708080809080a080b080408050806040105010601002b0003020304002d000201",
        "01003300260024001d00201fea859fdbd4f04a9c51d27bf8684a14cff5e0405c4c7eb991380779dc",
        "b2681d1403030001011703030045c34fefc8e1111c580124f540cc4f3c1b21b467460729aafe6dde",
        "9d7fce12525f669046be0f2da47ec13f2820919d7aa9e78b29c13b6b7d9ce0e01234c04b2cfca8d4",
        "22146c170303002cc3e0b7a7d51a0c6c11f411a2915da52a7b1bc96feb8c0e934ab2b7dbdef1d4d4",
        "489da76698cde508c420379617030300168432692eebe2690627d9b293ba23f14fd8b586e92e6317",
        "03030034a41650b3ba9b9f854cec2af5169712aedf6b480741c9c022a56a8aff7c03eaefab2c5c25",
        "39f2f1b6c3ebca0b3359228c8a2db9821703030013c011c88e01eebbd3642f25295140a3dd908406",
    ],
    epochs: &[
        Epoch {
            secret: "fd278bc4ac0615f86817140d62b66c69d786ecc201b8af03627fe2a9e90ef662b0eceb95da0f887430b7d9d5d42e0a67",
            key: "c31a9a77df3d8b1b8a5fc58c78d3687767e67a38102769ee29bf2013d311d33c",
            iv: "a901428417e80fbe1da5e84f",
            records: &AES_256_CLIENT_0,
        },
        Epoch {
            secret: "fbb5e93070ab27b4786580363f0cfdc7f9c39fc8bde110935f4c353a212c406f84db3dd7bce37f7ca0770e64677687a7",
            key: "6c066102f473034acbf845b7e51fcf66b365716edc1d582dcfbea09f4c70904c",
            iv: "7285cc9b21b5f9ebc2ea864e",
            records: &AES_256_CLIENT_1,
        },
        Epoch {
            secret: "8cf2e18d6061b74c4eaf3496e68a943304f3db15a10230ff549df0c6848215d58d387712ca719bb399ccc71b7ffd8df6",
            key: "f87da1006b442a43a065176552725d9f477efae8f2597c7ed8d9ca1b421bc38d",
            iv: "2b765ac1ac18ba545c61633a",
            records: &AES_256_CLIENT_2,
        },
    ],
};

const AES_256_SERVER_0: [Carried; 4] = [
    Carried {
        content_type: ContentType::Handshake,
        content: &["080000020000"],
        padding: 0,
    },
    Carried {
        content_type: ContentType::Handshake,
        content: &[
            "0b000139000001350001303082012c3081dfa003020102021470742dc92d4c95d424058c4c3c8f84",
            "98547d13bd300506032b6570300c310a300806035504030c0174301e170d32363131323630373334",
            "34335a170d3236313132373037333434335a300c310a300806035504030c0174302a300506032b65",
            "70032100f82357847daa2f33b5c7dfbd4ce8f3b9bf02beeeb282a43826ed2a9d816b4959a3533051",
            "301d0603551d0e04160414f971a278edfdf3820fe4e06d125e6fea60259af5301f0603551d230418",
            "30168014f971a278edfdf3820fe4e06d125e6fea60259af5300f0603551d130101ff040530030101",
            "ff300506032b6570034100b6de21068e2c41ac912db555dbdc5b8bbc34978e607fe34228ac781f51",
            "481567c4a1b6cae5556cf6186402765f333cfe62e942400cd6e214161363a0e705080b0000",
        ],
        padding: 0,
    },
    Carried {
        content_type: ContentType::Handshake,
        content: &[
            "0f000044080700400efcae48c7a1bbf5a09297c7c9384911d866ac31ae8a4364ede939fd3199260b",
            "1f608d955853be0f21726b4e866954bae5841a8b4e6f0b95e41a6c68e8a50805",
        ],
        padding: 0,
    },
    Carried {
        content_type: ContentType::Handshake,
        content: &[
            "1400003065e701ebbcc0a0d5e659710e45d61ed1279d6cc7b1e153548a8765532f34d693b7b7e168",
            "5b103aaca915ffa9c5b4e8b4",
        ],
        padding: 0,
    },
];

const AES_256_SERVER_1: [Carried; 3] = [
    Carried {
        content_type: ContentType::Handshake,
        content: &[
            "040000e500001c20211cd81c08000000000000000000d0446a1d8e941017284f3d36852147da887d",
            "e51248bf2d7e4778b7bbcf9b74fac49daf65dd216786a30fe68daad92c612d17585ff128d91f8ddf",
            "fed7983b8c18f60b8c714e36ed6f212325252986ce5c7072692da06f7610f553a11a3071e42df7da",
            "fe9e3c6e47314aed9499453557a824ae09e92001dbdbdfa49fabdf8bc7f35ee37458866439930b70",
            "803387d8f888c229c997f789723d957e5690c53fc86c4b65d19504ef58efa7e070632d58856ab3dd",
            "d62d7d797dac1134c4aa83c2348499e5cf0d2123471c084cf2f86b1b613ed40000",
        ],
        padding: 0,
    },
    Carried {
        content_type: ContentType::ApplicationData,
        content: &["616e64206f6e65206f6620746865207365727665720a"],
        padding: 0,
    },
    Carried {
        content_type: ContentType::Handshake,
        content: &["1800000100"],
        padding: 0,
    },
];

const AES_256_SERVER_2: [Carried; 2] = [
    Carried {
        content_type: ContentType::ApplicationData,
        content: &["616e64206f6e6520756e646572207468652073657276657227730a"],
        padding: 0,
    },
    Carried {
        content_type: ContentType::Alert,
        content: &["0100"],
        padding: 0,
    },
];

const AES_256_SERVER: Direction = Direction {
    stream: &[
        "160303007a0200007603038f17fb180baf7e75c74344e5007cea41c898fc63cbc22431ca872c0c09",
        "a4e499200a2a3ae4475f9475e364edb70abd475960f7f602f391ad61caef2bf7a01c95c713020000",
        "2e002b0002030400330024001d0020be905f51ec2ff04649ab36114856f0c61c5e72397a3b5c358c",
        "5f400d1805fc521403030001011703030017e9519ef45fd2f2568ae3ef2c0bc27209e8c9d180a49b",
        "1b170303014ec208cb9b848615a91e654188e606301dcc18634daea29e276ff3a53b5767c20dfc6c",
        "836d0f3adf38974c3c57f5d901c1c02d84b29933c5c46b814ca5fde841c4178bc60c34d6e236afee",
        "260f8825f07bf9fec65331e0b28cf887e2cab5cc79d38b8f52a5cf20bad1ee7f9442ecac1d5f03ed",
        "f776e76d0434f989df5777ed2d992220aa91f023e20a7d60910c5f37fd3265043a06420648a80911",
        "e07767f9ad965a2292da1955c42b079e3f1fbbb5f9e00e70ab5e8623a82d3d37b037aa6b153e986d",
        "2f7e2888ff8604ae89cfe9846b9206f68903375d1bebcb3a1e01f421ae4aff9bd441b09a52ae9a54",
        "e0e3a36afdde6ebcd839ccfb9a950e18b9ea31ed0001630eceb47e03415c3ccd1d87701c08232186",
        "7b06c5b20b643142c5544f5a809ef77ad4d423609350b0c3355e3f83792b0e52ed2f7e71391fa358",
        "66d06919b505fa03cc14f2f1e422aa9b15a55acb1703030059348cc134ce1f19550977a9ebb7f407",
        "05365d0e90308db539c9f44be49e10ce16f48bf0c49369f03dfbd95586a721e2a96def754d4140da",
        "dae662521af47eb21cd931f3431b055bd778c9d1b136e2c8bc9a78d4b8f4a5770ea41703030045d1",
        "22c9fd5cf85afa0e9a934acfa6a2796b0ad9e1d0eec06f7ed519e35f6cb783fb441d1adefbe3c2dd",
        "45bff26db85ee06f3ae56a654295d1cd4486decbd61a2a4e19c6233617030300fac36836e087303b",
        "977afc474df612b602d3edd08bb812e37a46aeb12d965019a493465a665e32358f84a2f47363e9b1",
        "7e13589af7efd77e0ad2d739b0cba040b7e7023e7884c5125b29333b66d16d7d897b7145596f3d0c",
        "ccf2ea65bd7bcf58d4de9442f245fb3bcd67761666a17a90fe36797c795942e3aaf7696eb8aee2b2",
        "73c73362dfdbd2d65fc7a9f29c85151b7583e9dcd2d9b08a7dbc18f00e75e4e757ad56902e50d0e8",
        "db269b65beb1af57ba938ff282a56242ba20eed8c8f129578b2d23204c10afc8d97b1ef655b6ee8b",
        "67600a65a6d328e652f4d88ad668fe514e4c2382ee3715fa7b6666dc92a43a5d496bfc0b480d9fb4",
        "8a7b681703030027ab7add2b418377304634b8d3032d20561cf168c3e6210106e8297eec7f7290fd",
        "6402efd684cd8217030300165604d13099b0e1bbc782ffcc0b3c011d4bdfeb28653e170303002c3d",
        "86ee5cd90829b46827baa578618bd8d279f93285f466a51c222e7a88f61a2ef0679ebac2f17876a4",
        "94b9f11703030013366b4877a1f1fd43ab93af0e5053e337515c9f",
    ],
    epochs: &[
        Epoch {
            secret: "7c4d09324532a51bfbc986fa71c64c87a3cafc8f316eced42f7e7151a90ec983330774af2f8fa374841a6916de814953",
            key: "7ef640878cbfdfda4287a54b5e3de14bd9f1db9fc63bf6d8bbea5f6428f60335",
            iv: "a47809516642f35101df3782",
            records: &AES_256_SERVER_0,
        },
        Epoch {
            secret: "0ec8ecdaa9a26e2712588471595b327b6afd7c260807f042d18bf0a11d826abedd022ebdfb6ea9a2c768f820db17632a",
            key: "8190d55108cf737a8cc99068055bebb92f22f62351770f8a975445597876f798",
            iv: "993f1733518c3368c43564c4",
            records: &AES_256_SERVER_1,
        },
        Epoch {
            secret: "000088a2acc57ed6beabdb0ef65a515274462d2ff3e9f55151c8fb57a6615eeddb9f17d3145b43416e14d502cc3750ff",
            key: "13b7161f834704f2625a976e59e6ba9c5cb0b37006fa6c9271e92385a937d8e9",
            iv: "6c386d3dd08261838989eb82",
            records: &AES_256_SERVER_2,
        },
    ],
};

const AES_256_PADDED_CLIENT_0: [Carried; 1] = [Carried {
    content_type: ContentType::Handshake,
    content: &[
        "140000305759fd2b27da5cbf673de9c7d96744f6e1494322b1c452359ec742e94b0e4f08601d104a",
        "3dd3c7107b4e6041f938934e",
    ],
    padding: 11,
}];

const AES_256_PADDED_CLIENT_1: [Carried; 2] = [
    Carried {
        content_type: ContentType::ApplicationData,
        content: &["61206669727374206c696e65206f662074686520636c69656e740a"],
        padding: 36,
    },
    Carried {
        content_type: ContentType::Handshake,
        content: &["1800000101"],
        padding: 58,
    },
];

const AES_256_PADDED_CLIENT_2: [Carried; 2] = [
    Carried {
        content_type: ContentType::ApplicationData,
        content: &["61206c696e6520756e6465722074686520636c69656e742773206e657874206b65790a"],
        padding: 28,
    },
    Carried {
        content_type: ContentType::Alert,
        content: &["0100"],
        padding: 61,
    },
];

const AES_256_PADDED_CLIENT: Direction = Direction {
    stream: &[
        "16030100c6010000c20303b13d1f13d85930dbffec0bcd3645c37423f7d1bbe7d5c08a244de1021f",
        "e3c6f120ea3b9443bf5e03f6e11963c9c06ba663eb44c33ca8ce57b5a8d042a135b1b9a700041302",
        "00ff01000075000b000403000102000a00040002001d002300000016000000170000000d001e001c",
        "040305030603080708080809080a080b080408050806040105010601002b0003020304002d000201",
        "01003300260024001d00201dd364c6576cb89c61430cf723569099a6c4ca2ba0afdcf4fbf3275e28",
        "33f43714030300010117030300508626a01a9ce74aebbe1e3798e8a03039c0c6c47ee121bdc68d4d",
        "4307f1bf8ec1c56f1aafc0d46820cde0c7d692d8a626c6f78a7b908312d75b8e8926c4bdbfc77930",
        "1a7e9d696d2981c890f4610e05e717030300501c2dfd1d4ac5cfe4c79efb96896e556a60303619b2",
        "a3dc031bca476fa401528f09813ca7044b8c73b65476fdfb8dd6bd18ca37d12a2b54821974ddbfa3",
        "226e932b454c5211965a5b5fe85535304df01d17030300509c239a4c43ba7b40ae74496b2e5d2893",
        "e6c32760f4751758dfce221c413726e34758bf78a38888a4a95b7584da26d78ef1091f642860b1aa",
        "de29ad57d1c2ddd643e492035bf7dd33d4424a41efcd07991703030050c17edb197db1ac7f5fe130",
        "96a844b6276256d351bb725fbdad3d0c9052b9109a09652065aa85692a8b3da7ae9b4bd124b8ff7d",
        "268b3f8dd47f6938f442f182c2aac186bab554a5ecc457dcb1b0dea06b1703030050b311c957ab76",
        "2ce7780e394257de0cdd9994f54ba52f8f3d2398c9b2d5fb1810e346f0db171e21e3d63884c02c8c",
        "ddc315e97283a420b5daaf1c3d3623a217ceb68450aaabbdc9ea7b225825a36039a8",
    ],
    epochs: &[
        Epoch {
            secret: "ecf40bfe219bd9673d888a72d8fc7339a9f9759d7538f24f16882aab294d5b001b40caa756ccfc7ef9a52bbb2bca0812",
            key: "758c12f98af5431136103e7e81c8831fa478629d7f6f8e2ff539823d2a0e8a0e",
            iv: "b974a600a86a5378fc7700f6",
            records: &AES_256_PADDED_CLIENT_0,
        },
        Epoch {
            secret: "67e92e8812e45066ca336dc0236e695d18a776faf59ed49cbd067cc86528a87524bc6fafcd85923577cab926e3183b7b",
            key: "d12551c8aad39f80020930ed975e2a454bf5322e065d9f49136ad1f8d871a4a6",
            iv: "e12495c40dd3d6973a553812",
            records: &AES_256_PADDED_CLIENT_1,
        },
        Epoch {
            secret: "c86ae38291810ae5065b35e21d6efb5a60b7544e8f6230045913cd868f3e13c812d196dd80031c10cbb15142dbd0fb0f",
            key: "a499fd32ccb78dc8cffba1a1e4fe0e57fc22603b86e92fb5d19072b87f8133a1",
            iv: "017fadd676b28c48a77bc375",
            records: &AES_256_PADDED_CLIENT_2,
        },
    ],
};

const AES_256_PADDED_SERVER_0: [Carried; 4] = [
    Carried {
        content_type: ContentType::Handshake,
        content: &["080000020000"],
        padding: 57,
    },
    Carried {
        content_type: ContentType::Handshake,
        content: &[
            "0b000139000001350001303082012c3081dfa003020102021470742dc92d4c95d424058c4c3c8f84",
            "98547d13bd300506032b6570300c310a300806035504030c0174301e170d32363131323630373334",
            "34335a170d3236313132373037333434335a300c310a300806035504030c0174302a300506032b65",
            "70032100f82357847daa2f33b5c7dfbd4ce8f3b9bf02beeeb282a43826ed2a9d816b4959a3533051",
            "301d0603551d0e04160414f971a278edfdf3820fe4e06d125e6fea60259af5301f0603551d230418",
            "30168014f971a278edfdf3820fe4e06d125e6fea60259af5300f0603551d130101ff040530030101",
            "ff300506032b6570034100b6de21068e2c41ac912db555dbdc5b8bbc34978e607fe34228ac781f51",
            "481567c4a1b6cae5556cf6186402765f333cfe62e942400cd6e214161363a0e705080b0000",
        ],
        padding: 2,
    },
    Carried {
        content_type: ContentType::Handshake,
        content: &[
            "0f0000440807004012ca8af11219158dd864c9f50a6ad6aeb5ee7702a726848de084d0ac8a532b32",
            "d779fdf9bfa768e4524e84f11f6ee80eba473042ea1cf335530139bb4407400f",
        ],
        padding: 55,
    },
    Carried {
        content_type: ContentType::Handshake,
        content: &[
            "14000030922f272dac64135ca8f17ff09e34f1888054dc293715c685a4447cb0eb46f9820f86254c",
            "0863ebfd8b6aa72b9080545a",
        ],
        padding: 11,
    },
];

const AES_256_PADDED_SERVER_1: [Carried; 3] = [
    Carried {
        content_type: ContentType::Handshake,
        content: &[
            "040000e500001c2011d98f4a08000000000000000000d03cc7849fb871a59d9009a32bcc9b34ece5",
            "cdff35aca3da9b71249097be9330247d8feb579f0ae8dce8850a3b9ed7adbb1f4768c78a36f5dbb7",
            "36425d07a646c56b7ce70a808ed8e347f57fbe3a3f7f5b7b53e86bf803afbbd591496f781ad7f673",
            "57a61c821bb417c0c985482639e3a05bd37f67a836229774e2b88a4aa0f52995dcc74f3e6b12d4c9",
            "6430ea4deae0b5feeb1708b32fd7ba5ed19e79bfecf1807b2c29bd02af8ac09e08facc85aae73e3e",
            "163d9d3787f5805d0dd8411d305717f860f70df00c259adf15b4dcd8b11d6d0000",
        ],
        padding: 22,
    },
    Carried {
        content_type: ContentType::ApplicationData,
        content: &["616e64206f6e65206f6620746865207365727665720a"],
        padding: 41,
    },
    Carried {
        content_type: ContentType::Handshake,
        content: &["1800000100"],
        padding: 58,
    },
];

const AES_256_PADDED_SERVER_2: [Carried; 2] = [
    Carried {
        content_type: ContentType::ApplicationData,
        content: &["616e64206f6e6520756e646572207468652073657276657227730a"],
        padding: 36,
    },
    Carried {
        content_type: ContentType::Alert,
        content: &["0100"],
        padding: 61,
    },
];

const AES_256_PADDED_SERVER: Direction = Direction {
    stream: &[
        "160303007a0200007603032d4b5d3e08558365e1a2f3309ee59c4a28d131b9faa1e4c58ed86c8737",
        "15f29d20ea3b9443bf5e03f6e11963c9c06ba663eb44c33ca8ce57b5a8d042a135b1b9a713020000",
        "2e002b0002030400330024001d0020f77c9375f6e43cc17a48f95a0bceb8064f62123220488e65d2",
        "5ec358fd99f55f140303000101170303005058c05be53de3c7221bdcf6e5a1e7b737b92b809dc744",
        "24665e7e124879fb10e9127214fc457c4444c6705730b98e71c4e52a0ef2b2674db87f080efe070e",
        "7acaee4731f3a7ccf12d9f36126c0bebd20417030301508aef6c850bf521561b5ed70347e0b1ad90",
        "7b118f581c6fdd135c5e9c510887e16a9217c16814fc8e82659fd3fcd499190264abf533accf881b",
        "6c1f822f9840cd37e927ca4c33ea0e25b4755a695c721dded5aef691c5230fd67534b413b01f0f69",
        "40798aa39dbf917f38dfb72532c82fbef6e613ff26c039479fc9e76d0bf4c3dfd7b2f606a58dcc8b",
        "ebaa85dae6156beba1e0ab584e233db184e760acfa0cc20a490259467bd8b0c5383751b7c7bccaf4",
        "dd90bf29a27f035e0e8e24822e4f88b37b79a9cb4785e5c7092d5e576cc96e65dc6f1f58c87ece2f",
        "6951b3f17c22ca0f2f5abc76647c3d2445f22b574b41eb3e6ffc447930440e04d90d15b2347e9760",
        "4c8674034f2b64e3bb21fc3113ffab6e0bb590b73d3790e0ca4efdc7204af8b2c1300ad5105a9407",
        "a21e7e3f4faf9b73acb4f1414d089af05c983f03eb74954dc80241468af41127aa146d95a9e29a17",
        "0303009025212a1dbe62ca287418b6e03aa2852b9aeb16a6076ca8980f265c55c39e465ae1168bfa",
        "edcb80a2be909d9d813e689f5f477c4467a6572ac83cd3b492e371665d32bb610d0973cb35bc9991",
        "272dd271e5ae44e9e3bb6c16b38043964d8246834f07c2b0b9b3bb086c985c5bb896ab8be98ed95b",
        "99d52c97c74ae6801acd7243d66024a69267f8ebef7575ba0eeddef81703030050eff7837c4f74d2",
        "84930c7efafc17d5c3c4e356319a713fb572f5b62f1d3ac0941adc9234d21ee16d4bebf34c4c22f7",
        "6ba8190e4205cfc698c8aba99e55e11c94f8c5d3db98e55211c578e20eec3eb4851703030110d02f",
        "1fb2949054d4364cb48691b2de71e4d69d82e90f4598dc6ed0bc13aa4e8267e8a141e419a454a588",
        "523b9f25b6cf269cab25e34a57a202e8f9b9f1305e2466ff52241c0661955cf9699f4d2578bf1f34",
        "90d32697520a5031b8b9d4fd778382a18900769f7576abff64a3e18c20a7e761cfe2bf8f392ac711",
        "a92d777da688a62094966929bb708a2d60c90aa57a52eb4fb3f281e190b52f0f2c48f28b0eb7ac46",
        "2e580f275a8d8f99e504675a7f931a694760e10e20f520a10bb1361cf96d304052e9588b48fdd9c4",
        "a58377488182db5cda82f8ec45af1ff3f447ee3edd66d0d0271fa294b5f47d56429e5a4a7f8f03fa",
        "22ed30b3e9ea843e088d7f540436aa0ee72b283620a6295e38ed09ddbc5517030300509dd6b3523e",
        "d12a6bd1b203de944baadc1a38ff3517946a5b7e244f0a289ea5f46160c13daf4033e1fd0d3d4331",
        "5ac065e36d7ab89980e175f557f9257b8854cbce51607b8b3cdd2c15b823a7f0eaa15e1703030050",
        "9167b4e7649a89f0a4c1852b992eefd18fcc09867a9b4927eaf18a5c80fd1caa5d4738e8e12633c7",
        "455b6f42ca484adecea583da57f4ca7fb74143274405a508784674e9334e1588abb02cb844ca3b45",
        "17030300508df5b083bbace8f669b8b6bd82aca6362d59cd0eecdc80ad787e37b7e2ef22ee50de1b",
        "a2221e5191abd39209ac82917af0aeac0f9f2f01c5ddaf08328f3dc12c42942f3b74a03ecb9b657e",
        "2583a377cd1703030050c7e808579e4ca00486a1b2b7aaa6f0169e2e1fb57ab73383ba0215fabb3c",
        "c4ae26edd2280aa697a14a21844021262ae7268cc2e2e377f0c0c617ab068ce17e63c1177f4c72aa",
        "40de5b53e82fece6071f",
    ],
    epochs: &[
        Epoch {
            secret: "1c99d735badbbee9c5b4a430251e36cc948c5e7f27dbb93545d492f9754cde6eb4012f5174930f916086c69c60a772c9",
            key: "d4604b4e38e07d881b2bd73078f57830da90097cddce1a07a1d4c9fc71cf94a2",
            iv: "f3bd5320e3f5fcafaf1d4961",
            records: &AES_256_PADDED_SERVER_0,
        },
        Epoch {
            secret: "44f49b243a7b02e6cdf3c9e0974c30e8c0ff73c0ae96ff89b944a5b9d468df7bf6859cfad7c7150f38c76d55d9954f2e",
            key: "1a903acfaf3d637e97709f574e7e57dadc50e510c970b56998f5a743675fe44a",
            iv: "0b0e634c8cc9a37db57a01c0",
            records: &AES_256_PADDED_SERVER_1,
        },
        Epoch {
            secret: "34f13e241765e8e027699ddd6be1187d6f1c2e4e53ea5e56cdcde63176e91aa58263abf239d634fe9b780a66c45eeaf0",
            key: "4d30c852d5621e3511b992b2b75f0bbf9797ffb1277a55124dc91b187bcf4856",
            iv: "93f416341f992584eb0b76dc",
            records: &AES_256_PADDED_SERVER_2,
        },
    ],
};

/// Each direction of each connection: two under AES-128-GCM, and two under AES-256-GCM.
pub(crate) const CAPTURED: [(&str, &Direction); 8] = [
    ("AES_128_CLIENT", &AES_128_CLIENT),
    ("AES_128_SERVER", &AES_128_SERVER),
    ("AES_128_PADDED_CLIENT", &AES_128_PADDED_CLIENT),
    ("AES_128_PADDED_SERVER", &AES_128_PADDED_SERVER),
    ("AES_256_CLIENT", &AES_256_CLIENT),
    ("AES_256_SERVER", &AES_256_SERVER),
    ("AES_256_PADDED_CLIENT", &AES_256_PADDED_CLIENT),
    ("AES_256_PADDED_SERVER", &AES_256_PADDED_SERVER),
];
