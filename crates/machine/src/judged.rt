// What a frame handed in is to the end that it is handed to.

// At the host: no frame that it can use, one by which the device tells of its fault, an answer to the previous
// number, or the answer that the host waits for.
#[derive(Clone, Copy, Debug, PartialEq)]
pub enum HostJudged {
    Unfit,
    Told,
    Earlier,
    Current,
}

// At the device: no frame that it can use, a restart frame, one of the next number, or one of the present number.
#[derive(Clone, Copy, Debug, PartialEq)]
pub enum DeviceJudged {
    Unfit,
    Zero,
    Next,
    Same,
}
