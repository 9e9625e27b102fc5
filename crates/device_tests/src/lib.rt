// Tests of the devices: images, and mirrors over images and over failing devices.
#![tactic(auto)]

#[cfg(test)]
mod tests {
    use device::{Device, DeviceError, Failing, Image, Mirror, Remains};
    use std::process::Abort;
    use std::test::Fail;

    const LEAVES: [Remains; 3] = [Remains::Old, Remains::New, Remains::Unreadable];

    // The byte that block b begins with.
    fn first<D: Device>(device: &D, b: u16) -> Result<u8, Fail> {
        match device.read(b) {
            Ok(Some(bytes)) => Ok(bytes[0]),
            Ok(None) => Err(Fail::new("unreadable")),
            Err(DeviceError::Outside) => Err(Fail::new("outside")),
            Err(DeviceError::Offline) => Err(Fail::new("offline")),
        }
    }

    // Loses a write of nines to block 0, comes back, and tells what the block then begins with.
    fn after_loss<D: Device>(rt: &impl Abort, device: &mut D) -> Result<u8, Fail> {
        assert_eq!(rt; device.write(0, &[9; 512]), Err(DeviceError::Offline));
        assert_eq!(rt; device.read(0), Err(DeviceError::Offline));
        assert!(rt; device.bring_online().is_ok());
        first(device, 0)
    }

    #[test]
    fn image_keeps_its_blocks(rt: HostRuntime) -> Result<(), Fail> {
        let mut data = [5u8; 1100];
        let mut image = Image::new(&mut data);
        assert!(rt; image.count() == 2);
        assert!(rt; image.write(1, &[7; 512]).is_ok());
        assert_eq!(rt; image.write(2, &[8; 512]), Err(DeviceError::Outside));
        assert_eq!(rt; image.read(2), Err(DeviceError::Outside));
        assert_eq!(rt; first(&image, 0)?, 5);
        assert_eq!(rt; first(&image, 1)?, 7);
        assert!(rt; data[511] == 5 && data[512] == 7 && data[1023] == 7 && data[1024] == 5);
        Ok(())
    }

    #[test]
    fn mirror_writes_both_sides(rt: HostRuntime) -> Result<(), Fail> {
        let mut one = [1u8; 1536];
        let mut two = [2u8; 1024];
        let mut mirror = Mirror {
            left: Image::new(&mut one),
            right: Image::new(&mut two),
        };
        assert!(rt; mirror.count() == 2);
        assert_eq!(rt; first(&mirror, 1)?, 1);
        assert!(rt; mirror.write(1, &[9; 512]).is_ok());
        assert_eq!(rt; mirror.write(2, &[9; 512]), Err(DeviceError::Outside));
        assert!(rt; one[0] == 1 && one[512] == 9 && one[1024] == 1 && two[0] == 2 && two[512] == 9);
        Ok(())
    }

    // The right side loses the copy of the old bytes: the mirror is old.
    #[test]
    fn copy_is_lost(rt: HostRuntime) -> Result<(), Fail> {
        for leaves in LEAVES {
            let mut one = [1u8; 512];
            let mut two = [Some([2; 512])];
            let mut mirror = Mirror {
                left: Image::new(&mut one),
                right: Failing::new(&mut two, 0, leaves),
            };
            assert_eq!(rt; after_loss(&rt, &mut mirror)?, 1);
        }
        Ok(())
    }

    // The left side loses the write: the mirror is old or new, by the right side where the left one
    // is unreadable.
    #[test]
    fn left_is_lost(rt: HostRuntime) -> Result<(), Fail> {
        for leaves in LEAVES {
            let mut one = [Some([1; 512])];
            let mut two = [2u8; 512];
            let mut mirror = Mirror {
                left: Failing::new(&mut one, 0, leaves),
                right: Image::new(&mut two),
            };
            let kept = if leaves == Remains::New { 9 } else { 1 };
            assert_eq!(rt; after_loss(&rt, &mut mirror)?, kept);
            assert!(rt; two[0] == 1);
        }
        Ok(())
    }

    // The right side loses its last write, after the copy: the mirror is new.
    #[test]
    fn right_is_lost(rt: HostRuntime) -> Result<(), Fail> {
        for leaves in LEAVES {
            let mut one = [1u8; 512];
            let mut two = [Some([2; 512])];
            let mut mirror = Mirror {
                left: Image::new(&mut one),
                right: Failing::new(&mut two, 1, leaves),
            };
            assert_eq!(rt; after_loss(&rt, &mut mirror)?, 9);
        }
        Ok(())
    }

    // An unreadable left block is not copied, and the right one stands for it.
    #[test]
    fn left_is_unreadable(rt: HostRuntime) -> Result<(), Fail> {
        let mut one = [None];
        let mut two = [Some([2; 512])];
        let mut mirror = Mirror {
            left: Failing::new(&mut one, 0, Remains::Unreadable),
            right: Failing::new(&mut two, 0, Remains::Unreadable),
        };
        assert_eq!(rt; first(&mirror, 0)?, 2);
        assert_eq!(rt; after_loss(&rt, &mut mirror)?, 2);
        mirror.left.good = 1;
        assert_eq!(rt; after_loss(&rt, &mut mirror)?, 9);
        Ok(())
    }

    // Both sides are tried, whatever the left one answers.
    #[test]
    fn sides_come_online(rt: HostRuntime) -> Result<(), Fail> {
        let mut one = [Some([1; 512])];
        let mut two = [Some([2; 512])];
        let mut left = Failing::new(&mut one, 0, Remains::Old);
        let mut right = Failing::new(&mut two, 0, Remains::Old);
        left.recovers = false;
        right.online = false;
        let mut mirror = Mirror {
            left: &mut left,
            right: &mut right,
        };
        assert!(rt; mirror.bring_online().is_err());
        assert_eq!(rt; left.read(0), Err(DeviceError::Offline));
        assert_eq!(rt; first(&right, 0)?, 2);
        Ok(())
    }

    // A mirror of mirrors.
    #[test]
    fn mirrors_nest(rt: HostRuntime) -> Result<(), Fail> {
        let mut one = [Some([1; 512])];
        let mut two = [2u8; 512];
        let mut three = [3u8; 512];
        let inner = Mirror {
            left: Failing::new(&mut one, 0, Remains::Unreadable),
            right: Image::new(&mut two),
        };
        let mut outer = Mirror {
            left: inner,
            right: Image::new(&mut three),
        };
        assert_eq!(rt; after_loss(&rt, &mut outer)?, 1);
        assert!(rt; two[0] == 1 && three[0] == 1);
        Ok(())
    }
}
